ghost use Rattle.std.specs.Prelude.{◌≡◌, ◌∷◌, ◌++◌, [], Some, None, OnOk, OnErr, is_ok, if◌then◌else◌, length};
ghost use Rattle.std.specs.Option.{option_copied, option_or};
ghost use Rattle.script_scopes.specs.Places.{place_in, name_place};
ghost use Rattle.script_values.specs.Expressions.{put_local, local_named};
ghost use Rattle.script_values.specs.LocalNames.{names_of};
ghost use Rattle.script_values.specs.Nodes.{name_digest, way_end, place_end, HasNodes};

use crate::nodes::{End, NameNode, add_node, digest_of, note, place, seek};
use base_types::Value;
use script_scopes::NamePlaces;
use script_tree::Chars;
use std::alloc::{AllocError, Global};
use std::marker::Model;

/// A parameter or a local of a frame, and its value.
#[derive(Drop)]
pub struct Local {
    pub name: Chars,
    pub value: Value,
}

/// Parameters and locals in the order in which they came, and beside each a node of a tree, down which names go. One
/// is found in time in the logarithm of how many there are. The places of names whose ways would be too long are
/// those of a map.
#[derive(Drop)]
pub struct LocalList {
    list: Vec<Local>,
    nodes: Vec<NameNode>,
    others: NamePlaces,
}

impl Model for LocalList {
    ghost use Rattle.std.specs.Prelude.{List};
    ghost use Rattle.script_values.specs.declared.locals.Local.{Local};

    ghost Value = { List Local };

    ghost use Rattle.script_values.specs.Nodes.{HasNodes};

    ghost view = { λ l. l.list.items };

    ghost invariant = { λ l. HasNodes l.nodes.items l.list.items l.others };
}

impl LocalList {
    /// The value of the parameter or local of this name, none where no one has it.
    pub fn get(&self, name: &Chars) -> Option<&Value>
        ensures { option_copied result ≡ local_named name.now self.now }
    {
        let end = seek(
            self.nodes.as_slice(),
            self.list.as_slice(),
            name,
            digest_of(name),
        );
        match place(&self.others, name, end) {
            None => None,
            Some(at) => Some(value_at(self.list.as_slice(), name, at)),
        }
    }

    fn put(&mut self, name: &Chars, value: Value) -> Result<(), AllocError>
        ensures ok { OnOk result (self.new ≡ put_local name.now value self.old) }
        ensures err { OnErr result (self.new ≡ self.old) }
    {
        let digest = digest_of(name);
        let end = seek(self.nodes.as_slice(), self.list.as_slice(), name, digest);
        match place(&self.others, name, end) {
            Some(at) => {
                give(&mut self.list, name, at, value);
                Ok(())
            }
            None => {
                let name = name.copy()?;
                add(
                    &mut self.list,
                    &mut self.nodes,
                    &mut self.others,
                    Local { name, value },
                    digest,
                    end,
                )?;
                Ok(())
            }
        }
    }

    fn push(&mut self, local: Local) -> Result<(), AllocError>
        ensures items { self.new ≡ (if is_ok result then self.old ++ local ∷ [] else self.old) }
    {
        let digest = digest_of(&local.name);
        let end = seek(
            self.nodes.as_slice(),
            self.list.as_slice(),
            &local.name,
            digest,
        );
        if place(&self.others, &local.name, end).is_some() {
            self.list.reserve(1)?;
            add_node(&mut self.nodes, digest, false)?;
            self.list.push_reserved(local);
            return Ok(());
        }
        add(
            &mut self.list,
            &mut self.nodes,
            &mut self.others,
            local,
            digest,
            end,
        )?;
        Ok(())
    }
}

// The value of the local at the place of this name.
#[tactic(auto, using(crate::proofs::LocalPlaces::placed_within, crate::proofs::LocalPlaces::placed_named))]
fn value_at<'a>(list: &'a [Local], name: &Chars, at: usize) -> &'a Value
    requires { name_place name.now (names_of list.now) ≡ Some at }
    ensures { Some result.now ≡ local_named name.now list.now }
{
    &list[at].value
}

// The local at the place of this name gets a value.
#[tactic(auto, using(crate::proofs::LocalPlaces::placed_within))]
fn give(list: &mut Vec<Local>, name: &Chars, at: usize, value: Value)
    requires { name_place name.now (names_of list.old.items) ≡ Some at }
    ensures { list.new.items ≡ put_local name.now value list.old.items }
{
    let local = &mut list[at];
    local.value = value;
}

// One local more, and its place.
fn add(
    list: &mut Vec<Local>,
    nodes: &mut Vec<NameNode>,
    others: &mut NamePlaces,
    local: Local,
    digest: u64,
    end: End,
) -> Result<(), AllocError>
    requires has { HasNodes nodes.old.items list.old.items others.old }
    requires digest { digest ≡ name_digest local.name }
    requires end { end ≡ way_end nodes.old.items (names_of list.old.items) local.name digest }
    requires none { option_or (place_end end) (place_in others.old local.name) ≡ None }
    ensures items { list.new.items ≡ (if is_ok result then list.old.items ++ local ∷ [] else list.old.items) }
    ensures has { HasNodes nodes.new.items list.new.items others.new }
{
    list.reserve(1)?;
    note(nodes, others, list.as_slice(), &local.name, digest, end)?;
    list.push_reserved(local);
    Ok(())
}

/// The parameters and locals of a frame.
#[derive(Drop)]
pub struct FrameLocals {
    pub items: LocalList,
}

impl FrameLocals {
    /// None. Takes no memory.
    pub fn new(alloc: Global) -> FrameLocals
        ensures items { result.items ≡ [] }
    {
        FrameLocals {
            items: LocalList {
                list: Vec::new(alloc),
                nodes: Vec::new(alloc),
                others: NamePlaces::new(alloc),
            },
        }
    }

    /// How many there are.
    pub fn len(&self) -> usize
        ensures { result ≡ length self.now.items }
    {
        self.items.list.len()
    }

    /// They in their order.
    pub fn as_slice(&self) -> &LocalList
        ensures value { result.now ≡ self.now.items }
    {
        &self.items
    }

    /// One more. Without memory they stay as they were.
    pub fn push(&mut self, local: Local) -> Result<(), AllocError>
        ensures items { self.new.items ≡ (if is_ok result then self.old.items ++ local ∷ [] else self.old.items) }
    {
        self.items.push(local)
    }
}

/// Gives the parameter or local of this name a value, or adds one of this name. Without memory all stay as
/// they were.
pub fn assign(locals: &mut FrameLocals, name: &Chars, value: Value) -> Result<(), AllocError>
    ensures ok { OnOk result (locals.new.items ≡ put_local name.now value locals.old.items) }
    ensures err { OnErr result (locals.new.items ≡ locals.old.items) }
{
    locals.items.put(name, value)
}
