//! Values of rows.

ghost use Rattle.std.specs.Ordering.{on};
ghost use Rattle.std.specs.Cmp.{on_equiv, on_per, partial_equiv_from_equiv};
ghost use Rattle.binlog_base.specs.Values.{plain_of};
ghost use Rattle.binlog_base.specs.Equality.{same_plain};
ghost use Rattle.binlog_base.specs.Lemmas.Equality.{same_plain_is_equivalence};

/// A value of a row.
#[derive(Debug, Drop)]
pub enum Value {
    NULL,
    Bytes(Vec<u8>),
    Int(i64),
    UInt(u64),
    /// The 32 bits of a FLOAT.
    Float(u32),
    /// The 64 bits of a DOUBLE.
    Double(u64),
    /// Year, month, day, hour, minute, second, microseconds.
    Date(u16, u8, u8, u8, u8, u8, u32),
    /// Whether it is negative, days, hours, minutes, seconds, microseconds.
    Time(bool, u32, u8, u8, u8, u32),
}

/// Two values are equal if they have the same variant and the same fields. Floats are compared by
/// their bits.
impl PartialEq for Value {
    ghost eq = { on plain_of same_plain };

    ghost laws = { on_per plain_of (partial_equiv_from_equiv same_plain_is_equivalence) };

    fn eq(&self, other: &Self) -> bool {
        match (self, other) {
            (Value::NULL, Value::NULL) => true,
            (Value::Bytes(a), Value::Bytes(b)) => a == b,
            (Value::Int(a), Value::Int(b)) => a == b,
            (Value::UInt(a), Value::UInt(b)) => a == b,
            (Value::Float(a), Value::Float(b)) => a == b,
            (Value::Double(a), Value::Double(b)) => a == b,
            (Value::Date(y, m, d, h, i, s, u), Value::Date(y1, m1, d1, h1, i1, s1, u1)) => {
                (y, m, d, h, i, s, u) == (y1, m1, d1, h1, i1, s1, u1)
            }
            (Value::Time(n, d, h, i, s, u), Value::Time(n1, d1, h1, i1, s1, u1)) => {
                (n, d, h, i, s, u) == (n1, d1, h1, i1, s1, u1)
            }
            _ => false,
        }
    }
}

impl Eq for Value {
    ghost laws = { on_equiv plain_of same_plain_is_equivalence };
}
