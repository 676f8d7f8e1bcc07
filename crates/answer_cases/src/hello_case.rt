//! A line of the table of hellos.

ghost use Rattle.std.specs.Prelude.{IfSome};
ghost use Rattle.sync_hello.specs.HelloForm.{HasSpelling};

use crate::bytes::bytes_of;
use crate::hello_answer::{refusal_word, step_word};
use hex::FromHex;
use scheme_core::OpenScheme;
use std::alloc::Global;
use sync_hello::{Hello, HelloStep, check_hello, check_proof, common_area, read_hello};
use sync_msg::Role;
use willow_path::NamespaceKey;

/// Whether the answer of a line is that of the crate; none where the line is none of the table.
pub(crate) fn agrees(alloc: Global, kind: &str, fields: &str) -> Option<bool> {
    match kind {
        "read" => reads(alloc, fields),
        "check" => checks(alloc, fields),
        "proof" => proves(alloc, fields),
        "common" => meets(alloc, fields),
        _ => None,
    }
}

// The hello that all the bytes of a field spell, which spells them again.
fn hello_of(alloc: Global, field: &str) -> Option<Hello>
    ensures { IfSome result (λ h. HasSpelling h) }
{
    let bytes = bytes_of(alloc, field)?;
    let hello = whole(alloc, &bytes)?;
    let mut again = Vec::new(alloc);
    hello.encode(&mut again).ok()?;
    if again.as_slice() == bytes.as_slice() {
        Some(hello)
    } else {
        None
    }
}

// The hello that all the bytes spell.
fn whole(alloc: Global, bytes: &[u8]) -> Option<Hello>
    ensures { IfSome result (λ h. HasSpelling h) }
{
    match read_hello(alloc, bytes) {
        Ok(HelloStep::Whole { hello, taken }) if taken == bytes.len() => Some(hello),
        _ => None,
    }
}

// BYTES ANSWER
fn reads(alloc: Global, fields: &str) -> Option<bool> {
    let (bytes, due) = fields.split_once(' ')?;
    let bytes = bytes_of(alloc, bytes)?;
    let answer = step_word(alloc, read_hello(alloc, &bytes)).ok()?;
    Some(answer.as_str() == due)
}

// NAMESPACE HELLO REFUSAL
fn checks(alloc: Global, fields: &str) -> Option<bool> {
    let (namespace, fields) = fields.split_once(' ')?;
    let (hello, due) = fields.split_once(' ')?;
    let namespace = namespace_of(namespace)?;
    let hello = hello_of(alloc, hello)?;
    let answer = check_hello(&OpenScheme, &namespace, &hello);
    Some(refusal_word(alloc, answer).ok()?.as_str() == due)
}

// The namespace of a field.
fn namespace_of(field: &str) -> Option<NamespaceKey> {
    NamespaceKey::from_bytes(<[u8; 33] as FromHex>::from_hex(field).ok()?)
}

// SIDE CALLER ANSWERER SIGNATURE REFUSAL
fn proves(alloc: Global, fields: &str) -> Option<bool> {
    let (side, fields) = fields.split_once(' ')?;
    let (caller, fields) = fields.split_once(' ')?;
    let (answerer, fields) = fields.split_once(' ')?;
    let (signature, due) = fields.split_once(' ')?;
    let (caller, answerer) = (hello_of(alloc, caller)?, hello_of(alloc, answerer)?);
    let signature = bytes_of(alloc, signature)?;
    let side = if side == "caller" {
        Role::Caller
    } else {
        Role::Answerer
    };
    let answer = check_proof(alloc, &OpenScheme, side, &caller, &answerer, &signature);
    Some(refusal_word(alloc, answer).ok()?.as_str() == due)
}

// HELLO HELLO AREA
fn meets(alloc: Global, fields: &str) -> Option<bool> {
    let (one, fields) = fields.split_once(' ')?;
    let (other, due) = fields.split_once(' ')?;
    let (one, other) = (hello_of(alloc, one)?, hello_of(alloc, other)?);
    match common_area(&one, &other).ok()? {
        Some(area) => {
            let mut text = Vec::new(alloc);
            area.encode(&mut text).ok()?;
            Some(text.as_slice() == bytes_of(alloc, due)?.as_slice())
        }
        None => Some(due == "none"),
    }
}
