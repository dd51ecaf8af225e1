// The devices of a partition, by their majors.
ghost use Rattle.std.specs.Prelude.{◌≡◌};
ghost use Rattle.state.specs.Devices.{device_of};

/// A device of a partition.
#[derive(Clone, Copy, Debug, PartialEq, Eq)]
pub enum Device {
    /// Major 1.
    Keyboard,
    /// Major 2.
    Screen,
}

impl Device {
    /// The device of a major; there is none but these two.
    #[tactic(auto, unfolding(crate::specs::Devices::device_of))]
    pub fn of(major: u32) -> Option<Device>
        ensures { result ≡ device_of major }
    {
        match major {
            1 => Some(Device::Keyboard),
            2 => Some(Device::Screen),
            _ => None,
        }
    }
}
