// Why a call on the registers is refused.
#[derive(Clone, Copy, PartialEq, Eq, Debug)]
pub enum RegisterRefusal {
    // There is no register of that number.
    NoSuchRegister,
    // The buffer is too short for the registers.
    ShortBuffer,
}
