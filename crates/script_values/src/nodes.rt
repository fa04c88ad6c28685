ghost use Rattle.std.specs.Prelude.{◌≡◌, ◌+◌, ◌<◌, ◌%◌, ◌∷◌, ◌++◌, [], ℕ, List, Some, None, true, is_ok, if◌then◌else◌, OnOk, OnErr, length, bytes_eq, slice_get, slice_index};
ghost use Rattle.std.specs.Map.{update};
ghost use Rattle.std.specs.Option.{option_copied, option_or};
ghost use Rattle.script_scopes.specs.Places.{place_in};
ghost use Rattle.script_values.specs.LocalNames.{names_of};
ghost use Rattle.script_values.specs.Nodes.{stirred, name_digest, node_of, has_name, stands_for, named_at, last_end, way_end, place_end, place_found, GainsKid};

use crate::locals::Local;
use script_scopes::NamePlaces;
use script_tree::Chars;
use std::alloc::AllocError;

/// How many nodes lie behind the first on the way to a name, at the most.
const DEPTH: u32 = 31;

/// A local in the tree of all. A name goes down it by the digits of its digest. A node that isn't linked stands for no
/// name: its local's has a place elsewhere.
#[derive(Drop)]
pub struct NameNode {
    pub digest: u64,
    pub kids: [u32; 4],
    pub linked: bool,
}

/// Where the way of a name ends: at its local, at a node that has no kid that way, or at neither.
#[derive(Clone, Copy)]
pub enum End {
    At { place: usize },
    Free { node: usize, way: usize },
    Nowhere,
}

fn stirred(sum: u64, byte: u8) -> u64
    ensures { result ≡ stirred sum byte }
{
    let product = sum
        .wrapping_add(u64::from(byte))
        .wrapping_mul(11400714819323198485);
    product.wrapping_add(product / 4294967296)
}

/// A number that a name has. Different names mostly have different ones.
pub fn digest_of(name: &Chars) -> u64
    ensures { result ≡ name_digest name.now }
{
    let bytes = name.as_str().as_bytes();
    let mut sum = 0u64;
    for byte in bytes {
        sum = stirred(sum, *byte);
    }
    sum
}

/// The kid of a node on the way of these digits. 0 is none.
fn kid(node: &NameNode, rest: u64) -> usize
    ensures { result ≡ slice_index node.now.kids (rest % 4) }
{
    node.kids[(rest % 4) as usize] as usize
}

fn has_name(list: &[Local], at: usize, name: &Chars) -> bool
    ensures { result ≡ has_name (slice_get (names_of list.now) at) name.now }
{
    match list.get(at) {
        None => false,
        Some(local) => local.name.as_str().as_bytes() == name.as_str().as_bytes(),
    }
}

/// Whether a node is that of this name.
fn stands_for(node: &NameNode, list: &[Local], at: usize, name: &Chars, digest: u64) -> bool
    ensures { result ≡ stands_for (Some node.now) (slice_get (names_of list.now) at) name.now digest }
{
    node.linked && node.digest == digest && has_name(list, at, name)
}

fn last_end(nodes: &[NameNode], list: &[Local], name: &Chars, digest: u64, i: usize) -> End
    ensures { result ≡ last_end (named_at nodes.now (names_of list.now) name.now digest) i }
{
    match nodes.get(i) {
        None => End::Nowhere,
        Some(node) => {
            if stands_for(node, list, i, name, digest) {
                return End::At { place: i };
            }
            End::Nowhere
        }
    }
}

fn node_at(nodes: &[NameNode], i: usize) -> Option<&NameNode>
    ensures { option_copied result ≡ slice_get nodes.now i }
{
    nodes.get(i)
}

/// Where the way of a name ends.
pub fn seek(nodes: &[NameNode], list: &[Local], name: &Chars, digest: u64) -> End
    ensures { result ≡ way_end nodes.now (names_of list.now) name.now digest }
{
    let mut rest = digest;
    let mut i = 0usize;
    for gone in 0..DEPTH {
        let Some(node) = node_at(nodes, i) else {
            return End::Nowhere;
        };
        if node.digest == digest && stands_for(node, list, i, name, digest) {
            return End::At { place: i };
        }
        let next = kid(node, rest);
        if next == 0 {
            return End::Free {
                node: i,
                way: (rest % 4) as usize,
            };
        }
        rest /= 4;
        i = next;
    }
    last_end(nodes, list, name, digest, i)
}

/// The place of a name whose way ends here.
pub fn place(others: &NamePlaces, name: &Chars, end: End) -> Option<usize>
    ensures { result ≡ option_or (place_end end) (place_in others.now name.now) }
{
    match end {
        End::At { place } => Some(place),
        End::Free { .. } | End::Nowhere => others.find(name),
    }
}

/// A node more, which is no kid.
pub fn add_node(nodes: &mut Vec<NameNode>, digest: u64, linked: bool) -> Result<(), AllocError>
    ensures { nodes.new.items ≡ (if is_ok result then nodes.old.items ++ node_of digest linked ∷ [] else nodes.old.items) }
{
    nodes.push(NameNode {
        digest,
        kids: [0u32; 4],
        linked,
    })?;
    Ok(())
}

// A node gets a kid.
fn give_kid(nodes: &mut Vec<NameNode>, at: usize, way: usize, number: u32)
    requires at { at < length nodes.old.items }
    requires way { way < 4 }
    ensures { GainsKid nodes.old.items nodes.new.items at way number }
{
    let node = &mut nodes[at];
    node.kids[way] = number;
}

// One node more, as a kid.
fn link(
    nodes: &mut Vec<NameNode>,
    digest: u64,
    at: usize,
    way: usize,
    number: u32,
) -> Result<(), AllocError>
    requires at { at < length nodes.old.items }
    requires way { way < 4 }
    ensures ok { OnOk result (GainsKid (nodes.old.items ++ node_of digest true ∷ []) nodes.new.items at way number) }
    ensures err { OnErr result (nodes.new.items ≡ nodes.old.items) }
{
    add_node(nodes, digest, true)?;
    give_kid(nodes, at, way, number);
    Ok(())
}

/// A new name gets the place behind the others.
pub fn note(
    nodes: &mut Vec<NameNode>,
    others: &mut NamePlaces,
    list: &[Local],
    name: &Chars,
    digest: u64,
    end: End,
) -> Result<(), AllocError>
    requires even { length nodes.old.items ≡ length list.now }
    requires digest { digest ≡ name_digest name.now }
    requires end { end ≡ way_end nodes.old.items (names_of list.now) name.now digest }
    requires none { option_or (place_end end) (place_in others.old name.now) ≡ None }
    ensures even { OnOk result (length nodes.new.items ≡ length list.now + 1) }
    ensures ok { OnOk result ((other : List ℕ) →
        place_found nodes.new.items (names_of list.now ++ name.now ∷ []) others.new other
        ≡ update bytes_eq (place_found nodes.old.items (names_of list.now) others.old) name.now (Some (length list.now)) other) }
    ensures err { OnErr result (nodes.new.items ≡ nodes.old.items) }
    ensures others { OnErr result ((other : List ℕ) → place_in others.new other ≡ place_in others.old other) }
{
    let alloc = *nodes.allocator();
    if let End::Free { node, way } = end {
        if let Ok(number) = u32::try_from(nodes.len()) {
            link(nodes, digest, node, way, number)?;
            return Ok(());
        }
    }
    if nodes.is_empty() {
        add_node(nodes, digest, true)?;
        return Ok(());
    }
    nodes.reserve(1)?;
    others.note(alloc, name, list.len())?;
    nodes.push_reserved(NameNode {
        digest,
        kids: [0u32; 4],
        linked: false,
    });
    Ok(())
}
