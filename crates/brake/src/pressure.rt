// A pressure in the brake pipe, in hundredths of a bar; a type of its own, so that no other number is told as one.
#[derive(Clone, Copy, Debug, PartialEq, Eq, PartialOrd, Ord)]
pub struct Pressure {
    pub hundredths: u16,
}

impl Pressure {
    // The pressure below which an applied brake is settled.
    pub(crate) const SETTLING: Pressure = Pressure { hundredths: 350 };
}
