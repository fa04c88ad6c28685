ghost use Rattle.std.specs.Prelude.{◌≡◌, ◌≤◌, [], IfOk, length, map};
ghost use Rattle.std.specs.List.{All};
ghost use Rattle.base_types.specs.Texts.{short_text};
ghost use Rattle.script_tree.specs.Programs.{type_tree};
ghost use Rattle.script_check.specs.Shapes.{fitted, value_of, type_shape, IsSmall};

use base_types::{List, Shape, State, Text, TypeShape, Value};
use script_tree::{Chars, FieldDecl, Literal, Method, TypeDecl};
use std::alloc::{AllocError, Global};

/// A name or a text of a program as a text of its own. One past 4,096 bytes, which no text of a program gives,
/// counts as empty.
pub fn fitted(alloc: Global, text: &Chars) -> Result<Text, AllocError>
    ensures { IfOk result (λ made. made ≡ fitted text.now) }
{
    match Text::new(alloc, text.as_str())? {
        Some(text) => Ok(text),
        None => empty_text(alloc),
    }
}

fn empty_text(alloc: Global) -> Result<Text, AllocError>
    ensures { IfOk result (λ made. made ≡ []) }
{
    let text = Text::new(alloc, "")?;
    Ok(text.unwrap())
}

/// The value of a number or a text of a program.
pub fn value_of(alloc: Global, literal: &Literal) -> Result<Value, AllocError>
    ensures { IfOk result (λ made. made ≡ value_of literal.now) }
{
    match literal {
        Literal::Int(number) => Ok(Value::Int(*number)),
        Literal::Chars(text) => Ok(Value::Text(fitted(alloc, text)?)),
    }
}

/// The fields' initial values, in a state that has none yet.
fn push_initials(alloc: Global, state: &mut State, fields: &[FieldDecl]) -> Result<(), AllocError>
    requires empty { state.old ≡ [] }
    requires few { length fields.now ≤ 64 }
    ensures { IfOk result (λ _. state.new ≡ map (λ f. value_of f.initial) fields.now) }
{
    for field in fields {
        state.push(value_of(alloc, &field.initial)?)?;
    }
    Ok(())
}

/// The state with which a type's grain begins, for a type of at most 64 fields.
pub fn initial_state(alloc: Global, fields: &[FieldDecl]) -> Result<State, AllocError>
    requires { length fields.now ≤ 64 }
    ensures { IfOk result (λ made. made ≡ map (λ f. value_of f.initial) fields.now) }
{
    let mut state = State::new(alloc);
    push_initials(alloc, &mut state, fields)?;
    Ok(state)
}

/// How many parameters each method has.
fn params_of(alloc: Global, methods: &[Method]) -> Result<List<u16>, AllocError>
    requires { All (λ m. length m.params.list.items ≤ 8) methods.now }
    ensures { IfOk result (λ made. made ≡ map (λ m. length m.params.list.items) methods.now) }
{
    let mut params = List::new(alloc);
    for method in methods {
        params.push(method.params.len() as u16)?;
    }
    Ok(params)
}

#[tactic(auto, using(crate::proofs::TypeShapes::map_map))]
fn type_shape(alloc: Global, of_type: &TypeDecl) -> Result<TypeShape, AllocError>
    requires { IsSmall of_type.now }
    ensures { IfOk result (λ made. made ≡ type_shape (type_tree of_type.now)) }
{
    let name = fitted(alloc, &of_type.name.text)?;
    let initial = initial_state(alloc, of_type.fields.as_slice())?;
    let params = params_of(alloc, of_type.methods.as_slice())?;
    Ok(TypeShape {
        name,
        initial,
        params,
    })
}

/// The shapes of these types, in a list that has none yet.
fn push_shapes(
    alloc: Global,
    shapes: &mut List<TypeShape>,
    types: &[TypeDecl],
) -> Result<(), AllocError>
    requires empty { shapes.old ≡ [] }
    requires small { All IsSmall types.now }
    ensures { IfOk result (λ _. shapes.new ≡ map (λ t. type_shape (type_tree t)) types.now) }
{
    for of_type in types {
        shapes.push(type_shape(alloc, of_type)?)?;
    }
    Ok(())
}

/// The shape of these types.
pub fn shape_of(alloc: Global, types: &[TypeDecl]) -> Result<Shape, AllocError>
    requires { All IsSmall types.now }
    ensures { IfOk result (λ made. made.types ≡ map (λ t. type_shape (type_tree t)) types.now) }
{
    let mut shapes = List::new(alloc);
    push_shapes(alloc, &mut shapes, types)?;
    Ok(Shape { types: shapes })
}
