// The three bands, most urgent first, with their codes and their slices.
ghost use Rattle.std.specs.Prelude.{◌≡◌, ok_or};
ghost use Rattle.records.specs.Code.{unknown_code};
ghost use Rattle.records.specs.Band.{IsBandCode, coded_band, slice};

use crate::BAND_COUNT;
use crate::code::UnknownCode;

#[derive(Clone, Copy, PartialEq, Eq)]
pub enum QoSClass {
    UserInteractive,
    RealTimeIO,
    Background,
}

impl QoSClass {
    // The bands in the order in which a pick goes through them.
    pub const ALL: [QoSClass; BAND_COUNT] = [
        QoSClass::UserInteractive,
        QoSClass::RealTimeIO,
        QoSClass::Background,
    ];

    // The band's code, 0 to 2: document 01's byte in a record, and its queue's place.
    pub fn code(self) -> u8
        ensures { IsBandCode self result }
    {
        self as u8
    }
}

// The band that has this code; no band has 3 and above. A match, as for the states, since it shows each code beside its name.
impl TryFrom<u8> for QoSClass {
    type Error = UnknownCode;

    ghost try_from_gives = { λ code r. r ≡ ok_or (coded_band code) unknown_code };

    fn try_from(code: u8) -> Result<Self, UnknownCode> {
        match code {
            0 => Ok(QoSClass::UserInteractive),
            1 => Ok(QoSClass::RealTimeIO),
            2 => Ok(QoSClass::Background),
            _ => Err(UnknownCode),
        }
    }
}

// How long a task of the band runs before it has to give way, in microseconds.
pub fn band_slice_us(qos: QoSClass) -> u32
    ensures { result ≡ slice qos }
{
    match qos {
        QoSClass::UserInteractive => 2_000,
        QoSClass::RealTimeIO => 5_000,
        QoSClass::Background => 20_000,
    }
}
