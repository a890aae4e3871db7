//! Exact comparison.
ghost use Rattle.std.specs.Prelude.{◌≡◌, ◌↔◌, IsTrue};

/// A type whose values can be compared exactly.
pub trait Same {
    /// Returns whether the two values are equal as contracts see them.
    fn is_same(&self, other: &Self) -> bool
        ensures { IsTrue result ↔ (self.now ≡ other.now) };
}

impl Same for u16 {
    fn is_same(&self, other: &u16) -> bool {
        self == other
    }
}

impl Same for u32 {
    fn is_same(&self, other: &u32) -> bool {
        self == other
    }
}

impl Same for u64 {
    fn is_same(&self, other: &u64) -> bool {
        self == other
    }
}

impl Same for bool {
    fn is_same(&self, other: &bool) -> bool {
        self == other
    }
}

impl<T: Same> Same for Option<T> {
    fn is_same(&self, other: &Option<T>) -> bool {
        match (self, other) {
            (None, None) => true,
            (Some(value), Some(second)) => value.is_same(second),
            _ => false,
        }
    }
}

impl<A: Same, B: Same> Same for (A, B) {
    fn is_same(&self, other: &(A, B)) -> bool {
        self.0.is_same(&other.0) && self.1.is_same(&other.1)
    }
}

/// Returns whether two lists are equal.
pub fn are_same<T: Same>(one: &[T], other: &[T]) -> bool
    ensures { IsTrue result ↔ (one.now ≡ other.now) }
{
    if one.len() != other.len() {
        return false;
    }
    for i in 0..one.len() {
        if !one[i].is_same(&other[i]) {
            return false;
        }
    }
    true
}
