ghost use Rattle.std.specs.Prelude.{◌≡◌, ◌+◌};
ghost use Rattle.net_pcap.specs.Losses.{changed, lost_at, lost_in, with_missed, with_reported};

use crate::layout::NamedInterface;

impl NamedInterface {
    /// How many packets were lost at it, at least.
    fn lost(&self) -> u64
        ensures { result ≡ lost_at self.now }
    {
        self.reported.max(self.missed)
    }
}

/// Notes that an interface dropped so many packets since the capture began, and says how many more that are than was known.
pub fn report(interfaces: &mut [NamedInterface], number: u64, count: u64) -> u64
    ensures changed { interfaces.new ≡ changed (with_reported count) number interfaces.old }
    ensures more { lost_in interfaces.new ≡ lost_in interfaces.old + result }
{
    let place = number as usize;
    if place >= interfaces.len() {
        return 0;
    }
    let old = interfaces[place];
    let new = NamedInterface {
        reported: old.reported.max(count),
        ..old
    };
    interfaces[place] = new;
    new.lost() - old.lost()
}

/// Notes that an interface lost so many packets since its packet before, and says how many more that are than was known.
pub fn miss(interfaces: &mut [NamedInterface], number: u64, count: u64) -> u64
    ensures changed { interfaces.new ≡ changed (with_missed count) number interfaces.old }
    ensures more { lost_in interfaces.new ≡ lost_in interfaces.old + result }
{
    let place = number as usize;
    if place >= interfaces.len() {
        return 0;
    }
    let old = interfaces[place];
    let new = NamedInterface {
        missed: old.missed.saturating_add(count),
        ..old
    };
    interfaces[place] = new;
    new.lost() - old.lost()
}
