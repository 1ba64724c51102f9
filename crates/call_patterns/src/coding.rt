// The code of a key: FNV-1a of 64 bits over its bytes.

ghost use Rattle.call_patterns.specs.Codes.{fnv, hash, key_code};
ghost use Rattle.call_patterns.specs.Calls.{IsKeyOf, key_of};
ghost use Rattle.call_patterns.specs.Keys.{atom_key, functor_key, integer_key};
ghost use Rattle.std.specs.Prelude.{Some, ◌<◌, ◌≡◌};

use crate::key::Key;
use prolog_terms::{Names, Whole};

/// Where the hash begins.
const START: u64 = 14_695_981_039_346_656_037;

/// What the hash is multiplied by at each byte.
const FACTOR: u64 = 1_099_511_628_211;

/// The hash after more bytes.
fn mixed(hash: u64, bytes: &[u8]) -> u64
    ensures { result ≡ fnv hash bytes.now }
{
    let mut mixed = hash;
    for byte in bytes {
        mixed = (mixed ^ *byte as u64).wrapping_mul(FACTOR);
    }
    mixed
}

fn integer_code(value: Whole) -> u64
    ensures { result ≡ key_code (integer_key value) }
{
    let start = mixed(START, b"I");
    let bytes = value.to_le_bytes();
    mixed(start, &bytes)
}

fn atom_code(text: &[u8]) -> u64
    ensures { result ≡ key_code (atom_key text.now) }
{
    let start = mixed(START, b"A");
    mixed(start, text)
}

fn functor_code(text: &[u8], arity: u32) -> u64
    ensures { result ≡ key_code (functor_key text.now arity) }
{
    let start = mixed(START, &[b'F', (arity % 256) as u8]);
    mixed(start, text)
}

/// The code of a key whose name is a number of `names`. Keys of equal texts have equal codes, whatever their numbers are;
/// unequal keys may have one code. It takes no memory.
pub fn code(key: &Key, names: &Names) -> u64
    requires { IsKeyOf names.now (Some key.now) }
    ensures { result ≡ key_code (key_of names.now key.now) }
{
    match key {
        Key::Int(value) => integer_code(*value),
        Key::Atom(number) => atom_code(names.text(*number)),
        Key::Functor(number, arity) => functor_code(names.text(*number), *arity),
    }
}
