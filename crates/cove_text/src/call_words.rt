ghost use Rattle.std.specs.Prelude.{◌≡◌, ◌+◌, ◌*◌, ◌≤◌, [], ◌∷◌, ◌++◌, length, flat_map, bytes_eq, Some};
ghost use Rattle.std.specs.List.{list_any};
ghost use Rattle.cove_base.specs.Numbers.{number_text};
ghost use Rattle.cove_base.specs.Text.{spaced};
ghost use Rattle.cove_base.specs.CallWords.{arguments, call_of, call_text, is_call_word, word_of};

use crate::line_buf::{LINE_LIMIT, LineBuf};
use crate::numbers::put_number;
use arrayvec::ArrayVec;
use cove_base::HostCall;

/// Room in a line for every call that `put_call` writes.
pub const CALL_ROOM: usize = 103;

/// The call of a word and its arguments: none where the word is no call's, or has another number of arguments.
pub fn call_of(word: &[u8], args: &[u64]) -> Option<HostCall>
    ensures { result ≡ call_of word.now args.now }
{
    match args {
        [] => call_of_none(word),
        [a] => call_of_one(word, *a),
        [a, b] => call_of_two(word, *a, *b),
        [a, b, c] => call_of_three(word, *a, *b, *c),
        [a, b, c, d] => call_of_four(word, *a, *b, *c, *d),
        [a, b, c, d, e] => call_of_five(word, *a, *b, *c, *d, *e),
        _ => None,
    }
}

// The call of a word with no argument.
fn call_of_none(word: &[u8]) -> Option<HostCall>
    ensures { result ≡ call_of word.now [] }
{
    if word == b"gfence".as_slice() {
        return Some(HostCall::GlobalFence);
    }
    if word == b"lfence".as_slice() {
        return Some(HostCall::LocalFence);
    }
    if word == b"info".as_slice() {
        return Some(HostCall::Info);
    }
    None
}

// The call of a word with one argument.
fn call_of_one(word: &[u8], a: u64) -> Option<HostCall>
    ensures { result ≡ call_of word.now (a ∷ []) }
{
    if word == b"tfence".as_slice() {
        return Some(HostCall::TvmFence { t: a });
    }
    if word == b"destroy".as_slice() {
        return Some(HostCall::Destroy { t: a });
    }
    if word == b"kick".as_slice() {
        return Some(HostCall::Kick { hart: a });
    }
    None
}

// The call of a word with two arguments.
fn call_of_two(word: &[u8], a: u64, b: u64) -> Option<HostCall>
    ensures { result ≡ call_of word.now (a ∷ b ∷ []) }
{
    if word == b"convert".as_slice() {
        return Some(HostCall::Convert { base: a, n: b });
    }
    if word == b"reclaim".as_slice() {
        return Some(HostCall::Reclaim { base: a, n: b });
    }
    if word == b"create".as_slice() {
        return Some(HostCall::Create { root: a, state: b });
    }
    if word == b"unbind".as_slice() {
        return Some(HostCall::Unbind { t: a, v: b });
    }
    if word == b"unbound".as_slice() {
        return Some(HostCall::Unbound { t: a, v: b });
    }
    None
}

// The call of a word with three arguments, of which the first is a TVM.
fn call_of_three(word: &[u8], t: u64, b: u64, c: u64) -> Option<HostCall>
    ensures { result ≡ call_of word.now (t ∷ b ∷ c ∷ []) }
{
    if word == b"region".as_slice() {
        return Some(HostCall::Region { t, gpa: b, len: c });
    }
    if word == b"tables".as_slice() {
        return Some(HostCall::Tables { t, base: b, n: c });
    }
    if word == b"vcpu".as_slice() {
        return Some(HostCall::Vcpu { t, v: b, state: c });
    }
    if word == b"finalize".as_slice() {
        return Some(HostCall::Finalize { t, pc: b, arg: c });
    }
    if word == b"run".as_slice() {
        return Some(HostCall::Run { t, v: b, fuel: c });
    }
    if word == b"invalidate".as_slice() {
        return Some(HostCall::Invalidate { t, gpa: b, n: c });
    }
    if word == b"validate".as_slice() {
        return Some(HostCall::Validate { t, gpa: b, n: c });
    }
    if word == b"remove".as_slice() {
        return Some(HostCall::Remove { t, gpa: b, n: c });
    }
    if word == b"inject".as_slice() {
        return Some(HostCall::Inject { t, v: b, id: c });
    }
    None
}

// The call of a word with four arguments.
fn call_of_four(word: &[u8], a: u64, b: u64, c: u64, d: u64) -> Option<HostCall>
    ensures { result ≡ call_of word.now (a ∷ b ∷ c ∷ d ∷ []) }
{
    if word == b"zero".as_slice() {
        return Some(HostCall::Zero {
            t: a,
            base: b,
            n: c,
            gpa: d,
        });
    }
    if word == b"shared".as_slice() {
        return Some(HostCall::Shared {
            t: a,
            base: b,
            n: c,
            gpa: d,
        });
    }
    if word == b"bind".as_slice() {
        return Some(HostCall::Bind {
            t: a,
            v: b,
            hart: c,
            file: d,
        });
    }
    None
}

// The call of a word with five arguments.
fn call_of_five(word: &[u8], a: u64, b: u64, c: u64, d: u64, e: u64) -> Option<HostCall>
    ensures { result ≡ call_of word.now (a ∷ b ∷ c ∷ d ∷ e ∷ []) }
{
    if word == b"measured".as_slice() {
        return Some(HostCall::Measured {
            t: a,
            src: b,
            dst: c,
            n: d,
            gpa: e,
        });
    }
    None
}

/// Whether a word is the word of a call.
pub fn is_call_word(word: &[u8]) -> bool
    ensures { result ≡ is_call_word word.now }
{
    is_among(word, &CALL_WORDS)
}

// Whether a word is one of these.
fn is_among(word: &[u8], words: &[&[u8]]) -> bool
    ensures { result ≡ list_any (λ known. bytes_eq word.now known.now) words.now }
{
    words.iter().any(|known| word == *known)
}

const CALL_WORDS: [&[u8]; 24] = [
    b"convert",
    b"gfence",
    b"lfence",
    b"reclaim",
    b"create",
    b"region",
    b"tables",
    b"measured",
    b"vcpu",
    b"finalize",
    b"zero",
    b"shared",
    b"run",
    b"invalidate",
    b"tfence",
    b"validate",
    b"remove",
    b"destroy",
    b"kick",
    b"info",
    b"bind",
    b"unbind",
    b"unbound",
    b"inject",
];

/// Appends a call as a line shows it: its word and its arguments, each after one space.
pub fn put_call(out: &mut LineBuf, call: &HostCall)
    requires { length out.old + CALL_ROOM ≤ LINE_LIMIT }
    ensures text { out.new ≡ out.old ++ call_text call.now }
    ensures room { length out.new ≤ length out.old + CALL_ROOM }
{
    out.put_bytes(word_of(call));
    put_numbers(out, arguments_of(call).as_slice());
}

// Appends numbers, each after one space.
fn put_numbers(out: &mut LineBuf, numbers: &[u64])
    requires { length out.old + 19 * length numbers.now ≤ LINE_LIMIT }
    ensures text { out.new ≡ out.old ++ flat_map (λ n. spaced (number_text n)) numbers.now }
    ensures room { length out.new ≤ length out.old + 19 * length numbers.now }
{
    for number in numbers {
        out.push(b' ');
        put_number(out, *number);
    }
}

// The arguments of a call, in order.
fn arguments_of(call: &HostCall) -> ArrayVec<u64, 5>
    ensures arguments { result.items ≡ arguments call.now }
    ensures few { length result.items ≤ 5 }
{
    match *call {
        HostCall::Convert { base, n } | HostCall::Reclaim { base, n } => list(&[base, n]),
        HostCall::Create { root, state } => list(&[root, state]),
        HostCall::Region { t, gpa, len } => list(&[t, gpa, len]),
        HostCall::Tables { t, base, n } => list(&[t, base, n]),
        HostCall::Measured {
            t,
            src,
            dst,
            n,
            gpa,
        } => list(&[t, src, dst, n, gpa]),
        HostCall::Vcpu { t, v, state } => list(&[t, v, state]),
        HostCall::Finalize { t, pc, arg } => list(&[t, pc, arg]),
        HostCall::Zero { t, base, n, gpa } | HostCall::Shared { t, base, n, gpa } => {
            list(&[t, base, n, gpa])
        }
        HostCall::Run { t, v, fuel } => list(&[t, v, fuel]),
        HostCall::Invalidate { t, gpa, n }
        | HostCall::Validate { t, gpa, n }
        | HostCall::Remove { t, gpa, n } => list(&[t, gpa, n]),
        HostCall::TvmFence { t } | HostCall::Destroy { t } => list(&[t]),
        HostCall::Kick { hart } => list(&[hart]),
        HostCall::Bind { t, v, hart, file } => list(&[t, v, hart, file]),
        HostCall::Unbind { t, v } | HostCall::Unbound { t, v } => list(&[t, v]),
        HostCall::Inject { t, v, id } => list(&[t, v, id]),
        HostCall::GlobalFence | HostCall::LocalFence | HostCall::Info => list(&[]),
    }
}

// A list of five numbers at most.
fn list(numbers: &[u64]) -> ArrayVec<u64, 5>
    requires { length numbers.now ≤ 5 }
    ensures { result.items ≡ numbers.now }
{
    let mut items = ArrayVec::new();
    match items.try_extend_from_slice(numbers) {
        Ok(()) => items,
        Err(_) => unreachable!(),
    }
}

// The word of a call.
fn word_of(call: &HostCall) -> &'static [u8]
    ensures { result.now ≡ word_of call.now }
{
    match call {
        HostCall::Convert { .. } => b"convert",
        HostCall::GlobalFence => b"gfence",
        HostCall::LocalFence => b"lfence",
        HostCall::Reclaim { .. } => b"reclaim",
        HostCall::Create { .. } => b"create",
        HostCall::Region { .. } => b"region",
        HostCall::Tables { .. } => b"tables",
        HostCall::Measured { .. } => b"measured",
        HostCall::Vcpu { .. } => b"vcpu",
        HostCall::Finalize { .. } => b"finalize",
        HostCall::Zero { .. } => b"zero",
        HostCall::Shared { .. } => b"shared",
        HostCall::Run { .. } => b"run",
        HostCall::Invalidate { .. } => b"invalidate",
        HostCall::TvmFence { .. } => b"tfence",
        HostCall::Validate { .. } => b"validate",
        HostCall::Remove { .. } => b"remove",
        HostCall::Destroy { .. } => b"destroy",
        HostCall::Kick { .. } => b"kick",
        HostCall::Info => b"info",
        HostCall::Bind { .. } => b"bind",
        HostCall::Unbind { .. } => b"unbind",
        HostCall::Unbound { .. } => b"unbound",
        HostCall::Inject { .. } => b"inject",
    }
}

/// What `put_call` writes is read back: the call of a call's word and arguments is that call.
pub fn call_is_read_back(call: &HostCall)
    ensures { call_of (word_of call.now) (arguments call.now) ≡ Some call.now }
{}
