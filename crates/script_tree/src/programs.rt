ghost use Rattle.std.specs.Prelude.{◌≡◌, map};
ghost use Rattle.script_tree.specs.Stmts.{stmt_trees, block_tree};
ghost use Rattle.script_tree.specs.Programs.{method_tree, type_tree, program_tree};

use crate::expressions::{Literal, Name};
use crate::items::Items;
use crate::options::{MethodKind, TxnOption};
use crate::statements::Stmt;

/// A program: its types in the order of the text.
#[derive(Drop)]
pub struct Program {
    pub types: Items<TypeDecl>,
}

impl Program {
    /// A program of these types.
    pub fn new(types: Items<TypeDecl>) -> Program
        ensures { program_tree result ≡ map type_tree types.list.items }
    {
        Program { types }
    }
}

/// A type, whose grains have these fields and methods.
#[derive(Drop)]
pub struct TypeDecl {
    pub name: Name,
    pub fields: Items<FieldDecl>,
    pub methods: Items<Method>,
}

impl TypeDecl {
    /// A type.
    pub fn new(name: Name, fields: Items<FieldDecl>, methods: Items<Method>) -> TypeDecl
        ensures { type_tree result ≡ record {
          name = name;
          fields = fields.list.items;
          methods = map method_tree methods.list.items;
        } }
    {
        TypeDecl {
            name,
            fields,
            methods,
        }
    }
}

/// A field, and what a grain that was never written has in it. A sign is part of the literal.
#[derive(Drop)]
pub struct FieldDecl {
    pub name: Name,
    pub initial: Literal,
}

/// A method. `option_at` is the place of the option's word.
#[derive(Drop)]
pub struct Method {
    pub name: Name,
    pub params: Items<Name>,
    pub option: TxnOption,
    pub option_at: u32,
    pub kind: MethodKind,
    pub body: Items<Stmt>,
}

impl Method {
    /// A method.
    pub fn new(
        name: Name,
        params: Items<Name>,
        option: TxnOption,
        option_at: u32,
        kind: MethodKind,
        body: Items<Stmt>,
    ) -> Method
        ensures { method_tree result ≡ record {
          name = name;
          params = params.list.items;
          option = option;
          option_at = option_at;
          kind = kind;
          body = block_tree (stmt_trees body.list.items);
        } }
    {
        Method {
            name,
            params,
            option,
            option_at,
            kind,
            body,
        }
    }
}
