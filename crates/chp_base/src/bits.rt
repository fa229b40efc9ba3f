//! Numbers of a width.

ghost use Rattle.std.specs.Prelude.{◌≡◌, ◌<◌, ◌≤◌, ◌^◌, IfSome, IsSome, ◌↔◌};

/// An unsigned number of 1 to 64 bits.
#[derive(Clone, Copy)]
pub struct Bits {
    width: u8,
    value: u64,
    pub ghost some: { 1 ≤ width },
    pub ghost most: { width ≤ 64 },
    pub ghost fits: { value < 2 ^ width },
}

impl Bits {
    /// The number `value` of `width` bits, or None where `width` isn't in 1 to 64 or `value` isn't below 2 to
    /// the width.
    pub fn new(width: u8, value: u64) -> Option<Bits>
        ensures made { IsSome result ↔ ((1 ≤ width) × (width ≤ 64) × (value < 2 ^ width)) }
        ensures width { IfSome result (λ bits. bits.width ≡ width) }
        ensures value { IfSome result (λ bits. bits.value ≡ value) }
    {
        if width == 0 || width > 64 {
            return None;
        }
        if width < 64 && value >= 1 << width {
            return None;
        }
        Some(Bits { width, value })
    }

    /// The number of bits, from 1 to 64.
    pub fn width(&self) -> u8
        ensures { result ≡ self.now.width }
    {
        self.width
    }

    /// The number, below 2 to the width.
    pub fn value(&self) -> u64
        ensures { result ≡ self.now.value }
    {
        self.value
    }
}
