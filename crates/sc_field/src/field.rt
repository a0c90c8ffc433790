ghost use Rattle.std.specs.Prelude.{◌≡◌, ◌≢◌, ℕ, MatchOption};
ghost use Rattle.sc_field.specs.Field.{IsField, IsNumbered, IsNumber, IsAction, IsExact};

/// A finite field with at most 256 elements, whose elements act on bytes.
///
/// Its laws, which each implementation proves, say that it is a field, that its elements are numbered, that
/// they act on the bytes as on a module whose sum is xor, and that `==` tells them apart. They speak of the
/// elements alone: every value in hand is one, as [`Field::known`] says.
pub trait Field: Copy + Eq {
    // Which values of the type are elements.
    ghost IsElement: { Self → Type 0 };

    ghost zero: { Self };

    ghost one: { Self };

    ghost add: { Self → Self → Self };

    ghost sub: { Self → Self → Self };

    ghost mul: { Self → Self → Self };

    // The inverse, at any element but zero.
    ghost inv: { Self → Self };

    ghost number: { Self → ℕ };

    // The element that has a number; it says nothing of what is no element's number.
    ghost element: { ℕ → Self };

    // The product of an element and a byte.
    ghost act: { Self → ℕ → ℕ };

    /// The neutral element of the sum.
    fn zero() -> Self
        ensures element { IsElement result }
        ensures value { result ≡ zero };

    /// The neutral element of the product.
    fn one() -> Self
        ensures element { IsElement result }
        ensures value { result ≡ one };

    /// The sum.
    fn add(self, other: Self) -> Self
        ensures element { IsElement result }
        ensures value { result ≡ add self other };

    /// The difference: what `add` of `other` takes back to `self`.
    fn sub(self, other: Self) -> Self
        ensures element { IsElement result }
        ensures value { result ≡ sub self other };

    /// The product.
    fn mul(self, other: Self) -> Self
        ensures element { IsElement result }
        ensures value { result ≡ mul self other };

    /// The inverse of an element other than zero.
    fn inv(self) -> Self
        requires { self ≢ zero }
        ensures element { IsElement result }
        ensures value { result ≡ inv self };

    /// The element's number, by which files and packets name it. Zero has 0 and one has 1.
    fn number(self) -> u8
        ensures { result ≡ number self };

    /// The element that has this number, if there is one.
    fn from_number(n: u8) -> Option<Self>
        ensures { MatchOption result ((x : Self) → IsElement x → number x ≢ n) (λ x. IsElement x × (number x ≡ n)) };

    /// The product of an element and a byte, which is additive in both.
    fn act(self, byte: u8) -> u8
        ensures { result ≡ act self byte };

    /// Does nothing. Its contract tells a proof that a value in hand is an element.
    fn known(self)
        ensures { IsElement self };

    ghost field: { IsField IsElement zero one add sub mul inv };

    ghost numbered: { IsNumbered IsElement zero one number element };

    ghost action: { IsAction IsElement zero one add mul act };

    ghost exact: { IsExact IsElement Self.eq };

    // The number of an element is its product with the byte 1. So numbers are added and multiplied as bytes are.
    ghost by_number: { (x : Self) → IsElement x → act x 1 ≡ number x };
}

/// The element with this number, for a number that is known to be one. It is [`Field::from_number`] without the question.
pub fn element_of<F: Field>(number: u8) -> F
    requires { IsNumber F.IsElement F.number F.element number }
    ensures element { F.IsElement result }
    ensures value { result ≡ F.element number }
{
    match F::from_number(number) {
        Some(element) => element,
        None => F::zero(),
    }
}
