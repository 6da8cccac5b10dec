//! A text is read as a JSON value, in one pass over its tokens.
ghost use Rattle.std.specs.Prelude.{◌≡◌, ◌<◌, ◌≤◌, Err, IfOk, None, OnOk, Some, length};
ghost use Rattle.json.specs.Json.{items, members, value};
ghost use Rattle.serde_json.specs.Data.{depth as nesting, no_members};
ghost use Rattle.serde_json.specs.Read.{converted, max_depth, of_items, of_json, of_members, read as read_text};
ghost use Rattle.borrowed_json.specs.View.{items_view, members_view, view};
ghost use Rattle.borrowed_json.specs.declared.fault.JsonFault.TheVariants as fault;

use crate::fault::JsonFault;
use crate::growth::put;
use crate::number::Number;
use crate::value::{Json, Members};
use bumpalo::Bump;
use json::{Reader, Scratch, Token};
use std::alloc::Global;

/// The greatest depth to which arrays and objects nest.
const NESTING: usize = 127;

/// The parts of arrays and objects whose end was not read yet: the items of the arrays, and the members of the objects. The parts of an
/// inner array or object come after the parts of the outer arrays and objects.
#[derive(Drop)]
struct Unfinished<'t> {
    items: Vec<Json<'t>>,
    members: Vec<(&'t str, Json<'t>)>,
}

/// Reads a text as a JSON value. The items and the members of the value are kept in `arena`, and texts with escapes in `scratch`; all other
/// texts are borrowed from the text that is read.
pub fn read_json<'t>(
    alloc: Global,
    arena: &'t Bump,
    text: &'t str,
    scratch: &'t mut Scratch,
) -> Result<Json<'t>, JsonFault>
    ensures value { IfOk result (λ v. read_text text.now ≡ Some (view v)) }
    ensures nests { IfOk result (λ v. nesting (view v) ≤ max_depth) }
    ensures syntax { result ≡ Err fault.Syntax → read_text text.now ≡ None }
{
    let mut reader = Reader::new(text, scratch)?;
    let mut unfinished = Unfinished {
        items: Vec::new(alloc),
        members: Vec::new(alloc),
    };
    let value = read(arena, &mut reader, &mut unfinished, NESTING)?;
    if reader.next().is_some() {
        return Err(JsonFault::Syntax);
    }
    Ok(value)
}

#[cycle(read)]
#[inline(always)]
fn read<'t>(
    arena: &'t Bump,
    reader: &mut Reader<'t>,
    unfinished: &mut Unfinished<'t>,
    depth: usize,
) -> Result<Json<'t>, JsonFault>
    ensures value { IfOk result (λ v. converted of_json (value depth reader.old) ≡ Some (view v, reader.new)) }
    ensures shorter { OnOk result (length reader.new < length reader.old) }
    ensures unfinished { OnOk result ((unfinished.new.items.items ≡ unfinished.old.items.items) × (unfinished.new.members.items ≡ unfinished.old.members.items)) }
    ensures syntax { result ≡ Err fault.Syntax → converted of_json (value depth reader.old) ≡ None }
{
    let token = reader.next().ok_or(JsonFault::Syntax)?;
    match token {
        Token::String(text) => Ok(Json::String(text)),
        Token::Number(text) => match Number::parse(text) {
            Some(number) => Ok(Json::Number(number)),
            None => Err(JsonFault::Syntax),
        },
        Token::Bool(b) => Ok(Json::Bool(b)),
        Token::Null => Ok(Json::Null),
        Token::EndObject | Token::EndArray | Token::Key(_) | Token::Bad => Err(JsonFault::Syntax),
        Token::BeginArray => {
            if depth == 0 {
                return Err(JsonFault::Syntax);
            }
            Ok(Json::Array(read_items(arena, reader, unfinished, depth - 1)?))
        }
        Token::BeginObject => {
            if depth == 0 {
                return Err(JsonFault::Syntax);
            }
            Ok(Json::Object(read_members(arena, reader, unfinished, depth - 1)?))
        }
    }
}

#[cycle(read)]
#[inline(never)]
fn read_items<'t>(
    arena: &'t Bump,
    reader: &mut Reader<'t>,
    unfinished: &mut Unfinished<'t>,
    depth: usize,
) -> Result<&'t [Json<'t>], JsonFault>
    ensures value { IfOk result (λ v. converted of_items (items (value depth) (length reader.old) reader.old) ≡ Some (items_view v.now, reader.new)) }
    ensures shorter { OnOk result (length reader.new < length reader.old) }
    ensures unfinished { OnOk result ((unfinished.new.items.items ≡ unfinished.old.items.items) × (unfinished.new.members.items ≡ unfinished.old.members.items)) }
    ensures syntax { result ≡ Err fault.Syntax → converted of_items (items (value depth) (length reader.old) reader.old) ≡ None }
{
    let base = unfinished.items.len();
    'items: while !reader.take_end_array() {
        let item = read(arena, reader, unfinished, depth)?;
        unfinished.items.push(item)?;
    }
    let items = arena.try_alloc_slice_copy(&unfinished.items[base..])?;
    unfinished.items.truncate(base);
    Ok(items)
}

#[cycle(read)]
#[inline(never)]
fn read_members<'t>(
    arena: &'t Bump,
    reader: &mut Reader<'t>,
    unfinished: &mut Unfinished<'t>,
    depth: usize,
) -> Result<Members<'t>, JsonFault>
    ensures value { IfOk result (λ m. converted (λ ms. of_members ms no_members) (members (value depth) (length reader.old) reader.old) ≡ Some (members_view m.now, reader.new)) }
    ensures shorter { OnOk result (length reader.new < length reader.old) }
    ensures unfinished { OnOk result ((unfinished.new.items.items ≡ unfinished.old.items.items) × (unfinished.new.members.items ≡ unfinished.old.members.items)) }
    ensures syntax { result ≡ Err fault.Syntax → converted (λ ms. of_members ms no_members) (members (value depth) (length reader.old) reader.old) ≡ None }
{
    let base = unfinished.members.len();
    'members: while let Some(name) = reader.next_key()? {
        let member = read(arena, reader, unfinished, depth)?;
        put(&mut unfinished.members, base, name, member)?;
    }
    let members = arena.try_alloc_slice_copy(&unfinished.members[base..])?;
    unfinished.members.truncate(base);
    Ok(members)
}
