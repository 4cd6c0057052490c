// A value's answer as the six words of a strip: its kind, and its 64 bits in two words.
#![tactic(auto)]

ghost use Rattle.std.specs.Prelude.{◌≡◌, [], ◌∷◌, Ok};
ghost use Rattle.number.specs.Signed.{extended as extended_of};
ghost use Rattle.value.specs.declared.Value.TheVariants.{Bool as Truth};
ghost use Rattle.value.specs.Answers.{in_two, kind_number, value_numbers, Numeral};
ghost use Rattle.strip.specs.Shapes.{words_of, value_shape};
ghost use Rattle.strip.specs.Steps.{list_of};

use strip::{Words, answer, refusal};
use value::{Kind, Refusal, Value};

// A signed number's bits: from the last of the range down, where it is below zero.
fn extended(z: i64) -> u64
    ensures { result ≡ extended_of z }
{
    if z < 0 {
        return 0xFFFF_FFFF_FFFF_FFFF - (-1 - z) as u64;
    }
    z as u64
}

// 64 bits in two words, the lower one first.
fn in_two(kind: usize, bits: u64) -> Words
    ensures { list_of result ≡ words_of value_shape (in_two kind bits) }
{
    let low = bits % 0x1_0000_0000;
    let high = bits / 0x1_0000_0000;
    answer(kind, 0, low as usize, high as usize)
}

// A single float's bits in the lower word.
fn in_one(kind: usize, bits: u32) -> Words
    ensures { list_of result ≡ 0 ∷ kind ∷ 0 ∷ bits ∷ 0 ∷ 0 ∷ [] }
{
    answer(kind, 0, bits as usize, 0)
}

fn of_truth(b: bool) -> Words
    ensures { list_of result ≡ words_of value_shape (value_numbers (Ok (Truth b))) }
{
    if b {
        return answer(1, 0, 0, 0);
    }
    answer(2, 0, 0, 0)
}

// The number of a kind of bytes: the primitive type, or 256 plus the basic type.
fn number_of(kind: Kind) -> usize
    ensures { result ≡ kind_number kind }
{
    match kind {
        Kind::Primitive(t) => t,
        Kind::ShortString => 257,
        Kind::Object => 258,
        Kind::List => 259,
    }
}

// A value that was read.
fn of_read(v: Value) -> Words
    requires { Numeral (Ok v) }
    ensures { list_of result ≡ words_of value_shape (value_numbers (Ok v)) }
{
    match v {
        Value::Null => answer(0, 0, 0, 0),
        Value::Bool(b) => of_truth(b),
        Value::I8(z) => in_two(3, extended(z as i64)),
        Value::I16(z) => in_two(4, extended(z as i64)),
        Value::I32(z) => in_two(5, extended(z as i64)),
        Value::I64(z) => in_two(6, extended(z)),
        Value::F32(x) => in_one(14, f32::to_bits(x)),
        Value::F32Nan(n) => in_one(14, n),
        Value::F64(x) => in_two(7, f64::to_bits(x)),
        Value::F64Nan(n) => in_two(7, n),
        Value::Bytes { kind, start, end } => answer(number_of(kind), 0, start, end),
    }
}

pub fn of_value(v: Result<Value, Refusal>) -> Words
    requires { Numeral v }
    ensures { list_of result ≡ words_of value_shape (value_numbers v) }
{
    match v {
        Ok(read) => of_read(read),
        Err(Refusal::Short) => refusal(50, 0),
        Err(Refusal::Unknown) => refusal(51, 0),
    }
}
