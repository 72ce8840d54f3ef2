//! Whether two operations are the same.
ghost use Rattle.std.specs.Prelude.{◌≡◌, true};

use m386_base::number::Width;
use m386_opmap::name::Name;
use m386_opmap::op::{Addr, Arg, Op, Rep};

/// Whether two addresses are the same.
fn same_address(address: &Addr, other: &Addr) -> bool
    ensures yes { result ≡ true → address.now ≡ other.now }
    ensures no { address.now ≡ other.now → result ≡ true }
{
    address.seg == other.seg
        && address.base == other.base
        && address.index == other.index
        && address.scale == other.scale
        && address.disp == other.disp
}

/// Whether two operands are the same.
fn same_arg(arg: &Arg, other: &Arg) -> bool
    ensures yes { result ≡ true → arg.now ≡ other.now }
    ensures no { arg.now ≡ other.now → result ≡ true }
{
    match (arg, other) {
        (Arg::Reg(a), Arg::Reg(b)) | (Arg::Seg(a), Arg::Seg(b)) => a == b,
        (Arg::Cr0, Arg::Cr0) => true,
        (Arg::Imm(a), Arg::Imm(b)) | (Arg::Rel(a), Arg::Rel(b)) => a == b,
        (Arg::Mem(a), Arg::Mem(b)) => same_address(a, b),
        (
            Arg::Far {
                selector: s,
                offset: o,
            },
            Arg::Far {
                selector: t,
                offset: p,
            },
        ) => s == t && o == p,
        _ => false,
    }
}

/// Whether two lists of operands are the same.
fn same_args(args: &[Arg], others: &[Arg]) -> bool
    ensures yes { result ≡ true → args.now ≡ others.now }
    ensures no { args.now ≡ others.now → result ≡ true }
{
    match args {
        [] => others.is_empty(),
        [arg, args @ ..] => match others {
            [] => false,
            [other, others @ ..] => same_arg(arg, other) && same_args(args, others),
        },
    }
}

/// Whether two names are the same.
pub fn same_name(name: Name, other: Name) -> bool
    ensures yes { result ≡ true → name ≡ other }
    ensures no { name ≡ other → result ≡ true }
{
    name == other
}

/// Whether two widths are the same.
fn same_width(width: Width, other: Width) -> bool
    ensures yes { result ≡ true → width ≡ other }
    ensures no { width ≡ other → result ≡ true }
{
    width == other
}

/// Whether two marks are the same.
fn same_mark(mark: bool, other: bool) -> bool
    ensures yes { result ≡ true → mark ≡ other }
    ensures no { mark ≡ other → result ≡ true }
{
    mark == other
}

/// Whether two repetitions are the same.
fn same_rep(rep: Rep, other: Rep) -> bool
    ensures yes { result ≡ true → rep ≡ other }
    ensures no { rep ≡ other → result ≡ true }
{
    rep == other
}

/// Whether two operations are the same.
pub fn same_op(op: &Op, other: &Op) -> bool
    ensures yes { result ≡ true → op.now ≡ other.now }
    ensures no { op.now ≡ other.now → result ≡ true }
{
    if !same_name(op.name, other.name) {
        return false;
    }
    if !same_width(op.width, other.width) {
        return false;
    }
    if !same_mark(op.lock, other.lock) {
        return false;
    }
    if !same_rep(op.rep, other.rep) {
        return false;
    }
    same_args(op.args.as_slice(), other.args.as_slice())
}
