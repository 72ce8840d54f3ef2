//! Cases of decoding: what `m386_decode` makes of bytes.
use m386_base::fault::Break;
use m386_decode::bytes::decode_bytes;
use m386_opmap::op::{Op, Rep};
use std::alloc::{AllocError, Global};

/// The text of an operation: its name, its width, its operands, and its prefixes LOCK, F3h and F2h.
fn text_of(alloc: Global, op: &Op) -> Result<String, AllocError> {
    let lock = if op.lock { " lock" } else { "" };
    let repeat = match op.rep {
        Rep::Once => "",
        Rep::Equal => " f3",
        Rep::NotEqual => " f2",
    };
    format!(in alloc;
        "{:?} {:?} {:?}{lock}{repeat}",
        op.name,
        op.width,
        op.args.as_slice()
    )
}

/// The answer to bytes in hexadecimal digits: the length and the text of the operation that they begin with, or the vector
/// of the exception, or `more` where they end within it.
pub fn answer(alloc: Global, question: &str) -> Result<String, AllocError> {
    let Ok(bytes) = hex::decode(alloc, question) else {
        return "no case".to_string(alloc);
    };
    match decode_bytes(bytes.as_slice()) {
        Ok(decoded) => {
            let text = text_of(alloc, &decoded.op)?;
            format!(in alloc; "{} {text}", decoded.len)
        }
        Err(Break::Fault(fault)) => format!(in alloc; "#{}", fault.vector),
        Err(Break::Stop(_)) => "more".to_string(alloc),
    }
}
