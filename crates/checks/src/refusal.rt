// Why a call or a start was refused.
ghost use Rattle.std.specs.Prelude.{◌≡◌};
ghost use Rattle.checks.specs.Checks.{refused};
ghost use Rattle.checks.specs.Refusals.{number_of, behind};

/// A refusal, by the name of its number. Two numbers have one name, BAD_PARTITION: 213, of a call, and 407, of a
/// set-up text.
#[derive(Clone, Copy, Debug, PartialEq, Eq)]
pub enum Refusal {
    /// 201: an mseg has no file.
    NotMapped,
    /// 202: neither the keyboard nor a segment without RW can be written.
    NoWrite,
    /// 203: the screen is faulty, or the store took fewer bytes than the file has.
    WriteFailure,
    /// 204: no such device.
    BadMajor,
    /// 205: not the caller's own device.
    BadMinor,
    /// 206: no key waits, or a screen is to be read from its cursor on.
    NoData,
    /// 207: the device to be read is faulty.
    ReadFailure,
    /// 208: the keyboard has no places.
    NotRandom,
    /// 209: an offset behind the screen's end, or a range that leaves its segment.
    BadOffset,
    /// 210: the screen's end.
    DeviceEnd,
    /// 211: the partition reaches no segment by this selector.
    BadSelector,
    /// 212: the terminal is stopped.
    Stopped,
    /// 213: not an active partition.
    BadPartition,
    /// 214: the lent part is too short.
    BadBuffer,
    /// 216: the state test fails.
    BadState,
    /// 300: no such name, or another password.
    AuthFailure,
    /// 301: somebody is logged in.
    LoginBusy,
    /// 302: no zero where a string has to end.
    InvalidString,
    /// 303: nobody is logged in.
    NoLogin,
    /// 401: not 1 to 8 partitions, or none is active.
    Setup,
    /// 402: the set-up text is too long.
    TextLong,
    /// 403: the store image is bad.
    BadStore,
    /// 404: no statement, or one out of order.
    Syntax,
    /// 405: a segment too many of its kind.
    TooMany,
    /// 406: not the next index.
    BadIndex,
    /// 407: no such partition, or CODE for a passive one.
    BadPartitionNumber,
    /// 408: a second CODE for a partition.
    DupCode,
    /// 409: the path is taken.
    DupPath,
    /// 410: the path is reserved.
    Reserved,
    /// 411: the image has no such file.
    NoFile,
    /// 412: an mseg's size.
    BadSize,
    /// 413: the permissions.
    BadPerms,
    /// 414: an active partition without CODE.
    NoCode,
    /// 415: a lent area is too short.
    NoMemory,
    /// 416: an active partition's password file is missing or malformed.
    BadPasswords,
}

impl Refusal {
    /// The number that is answered.
    // Stays: a match, where each name stands beside its number; a conversion would hide which number is meant.
    pub fn number(self) -> u32
        ensures { result ≡ number_of self }
    {
        match self {
            Refusal::NotMapped => 201,
            Refusal::NoWrite => 202,
            Refusal::WriteFailure => 203,
            Refusal::BadMajor => 204,
            Refusal::BadMinor => 205,
            Refusal::NoData => 206,
            Refusal::ReadFailure => 207,
            Refusal::NotRandom => 208,
            Refusal::BadOffset => 209,
            Refusal::DeviceEnd => 210,
            Refusal::BadSelector => 211,
            Refusal::Stopped => 212,
            Refusal::BadPartition => 213,
            Refusal::BadBuffer => 214,
            Refusal::BadState => 216,
            Refusal::AuthFailure => 300,
            Refusal::LoginBusy => 301,
            Refusal::InvalidString => 302,
            Refusal::NoLogin => 303,
            Refusal::Setup => 401,
            Refusal::TextLong => 402,
            Refusal::BadStore => 403,
            Refusal::Syntax => 404,
            Refusal::TooMany => 405,
            Refusal::BadIndex => 406,
            Refusal::BadPartitionNumber => 407,
            Refusal::DupCode => 408,
            Refusal::DupPath => 409,
            Refusal::Reserved => 410,
            Refusal::NoFile => 411,
            Refusal::BadSize => 412,
            Refusal::BadPerms => 413,
            Refusal::NoCode => 414,
            Refusal::NoMemory => 415,
            Refusal::BadPasswords => 416,
        }
    }
}

/// n, or `number` where nothing was refused before (n is 0) and the test holds.
// Stays: a public function over numbers, which promises an answer for every one.
#[tactic(auto, unfolding(crate::specs::Checks::refused))]
pub fn refuse(n: u32, test: bool, number: u32) -> u32
    ensures { result ≡ refused n test number }
{
    if n != 0 {
        return n;
    }
    if test { number } else { 0 }
}

/// The number of an outcome behind the common checks, which came to `n`: n where that refuses, else the outcome's own,
/// or 0.
#[tactic(auto, unfolding(crate::specs::Checks::refused))]
pub fn number_behind(n: u32, outcome: Result<(), Refusal>) -> u32
    ensures { result ≡ behind n outcome }
{
    match outcome {
        Ok(()) => refuse(n, false, 0),
        Err(refusal) => refuse(n, true, refusal.number()),
    }
}
