// A value read as a number, or as the place of its bytes (variant.rs: Variant; decoder.rs).
#![tactic(auto)]

ghost use Rattle.std.specs.Prelude.{◌≡◌, ◌+◌, ◌≤◌, length, Ok};
ghost use Rattle.lengths.specs.Lengths.{payload, own_length};
ghost use Rattle.value.specs.Reading.{single as single_of, double as double_of, payload_start, primitive as primitive_of};
ghost use Rattle.value.specs.Promises.{ReadPromise};

// Why no value is read: 50 for bytes that do not hold it, 51 for an unknown primitive type.
#[derive(Clone, Copy)]
pub enum Refusal {
    Short,
    Unknown,
}

impl From<lengths::Flaw> for Refusal {
    ghost use Rattle.std.specs.Prelude.{◌≡◌};
    ghost use Rattle.value.specs.Reading.{of_length};

    ghost from_gives = { λ flaw r. r ≡ of_length flaw };

    fn from(flaw: lengths::Flaw) -> Refusal {
        match flaw {
            lengths::Flaw::Cut => Refusal::Short,
            lengths::Flaw::Sum => Refusal::Short,
            lengths::Flaw::Unknown => Refusal::Unknown,
            lengths::Flaw::Longer => Refusal::Short,
        }
    }
}

// What the bytes are that a reading leaves as they are: those of a primitive, by its type, or of a value of another basic type.
#[derive(Clone, Copy)]
pub enum Kind {
    Primitive(usize),
    ShortString,
    Object,
    List,
}

// What a value is read as. A NaN's bits have a case of their own: the logic has one NaN, which keeps none of them.
// Bytes are those from start to end.
#[derive(Drop)]
pub enum Value {
    Null,
    Bool(bool),
    I8(i8),
    I16(i16),
    I32(i32),
    I64(i64),
    F32(f32),
    F32Nan(u32),
    F64(f64),
    F64Nan(u64),
    Bytes {
        kind: Kind,
        start: usize,
        end: usize,
    },
}

// A float by its bits. Without the sign, a NaN's are above those of infinity.
fn single(n: u32) -> Value
    ensures { result ≡ single_of n }
{
    if n % 0x8000_0000 <= 0x7F80_0000 {
        return Value::F32(f32::from_bits(n));
    }
    Value::F32Nan(n)
}

fn double(n: u64) -> Value
    ensures { result ≡ double_of n }
{
    if n % 0x8000_0000_0000_0000 <= 0x7FF0_0000_0000_0000 {
        return Value::F64(f64::from_bits(n));
    }
    Value::F64Nan(n)
}

// Where a primitive's payload starts: after the length that it holds, if it does.
fn payload_start(t: usize) -> usize
    ensures { result ≡ payload_start t }
{
    if lengths::holds_length(t) {
        return 5;
    }
    1
}

fn primitive(s: &[u8], t: usize, end: usize) -> Value
    requires { 1 + payload t ≤ length s.now }
    ensures { result ≡ primitive_of t s.now end }
{
    match t {
        0 => Value::Null,
        1 => Value::Bool(true),
        2 => Value::Bool(false),
        3 => Value::I8(number::read_i8(s, 1)),
        4 => Value::I16(number::read_i16(s, 1)),
        5 => Value::I32(number::read_i32(s, 1)),
        6 => Value::I64(number::read_i64(s, 1)),
        7 => double(width::unpack_u64(s, 1) as u64),
        14 => single(width::unpack_u32(s, 1, 4) as u32),
        _ => Value::Bytes {
            kind: Kind::Primitive(t),
            start: payload_start(t),
            end,
        },
    }
}

// A value whose own bytes end at `end`.
fn whole(s: &[u8], end: usize) -> Value
    requires { own_length s.now ≡ Ok end }
    ensures { ReadPromise s.now (Ok result) }
{
    let header = encoding::header_of(s[0]);
    match header {
        encoding::Header::Primitive(t) => primitive(s, t, end),
        encoding::Header::ShortString(_) => Value::Bytes {
            kind: Kind::ShortString,
            start: 1,
            end,
        },
        encoding::Header::Object(_) => Value::Bytes {
            kind: Kind::Object,
            start: 0,
            end,
        },
        encoding::Header::List(_) => Value::Bytes {
            kind: Kind::List,
            start: 0,
            end,
        },
    }
}

// Reads the value that the bytes begin with.
pub fn read(value: &[u8]) -> Result<Value, Refusal>
    ensures { ReadPromise value.now result }
{
    let end = lengths::own_length(value)?;
    Ok(whole(value, end))
}
