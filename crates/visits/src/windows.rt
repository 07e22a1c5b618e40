// One rank's windows of days (request P11): first and end days in turn.
ghost use Rattle.std.specs.Prelude.{◌≡◌, ◌+◌, ◌*◌, ◌-◌, ◌≤◌, ◌<◌, length};
ghost use Rattle.links.specs.Lists.{at};
ghost use Rattle.visits.specs.Season.{windows_in, good_window, good_windows};
ghost use Rattle.visits.specs.SeasonCode.{spanned};

// Whether a window begins where the one before it ends or later, has a day, and ends on day 3,660 at the latest.
#[tactic(auto, unfolding(crate::specs::Season::good_window))]
fn good_window(before: u32, first: u32, end: u32) -> bool
    ensures { result ≡ good_window before first end }
{
    before <= first && first < end && end <= 3660
}

// Whether the windows rise, and each of them is good.
pub(crate) fn good_windows(windows: &[u32]) -> bool
    ensures { result ≡ good_windows (windows_in windows.now) }
{
    let mut before: u32 = 0;
    for i in 0..windows.len() / 2 {
        let end = windows[2 * i + 1];
        if !good_window(before, windows[2 * i], end) {
            return false;
        }
        before = end;
    }
    true
}

// How many days window i has.
fn width(windows: &[u32], i: usize) -> u64
    requires { 2 * i + 1 < length windows.now }
    ensures { result ≡ at windows.now (2 * i + 1) - at windows.now (2 * i) }
{
    u64::from(windows[2 * i + 1].saturating_sub(windows[2 * i]))
}

// How many days the windows have.
pub(crate) fn count_days(windows: &[u32]) -> u64
    requires { length windows.now ≤ 64 }
    ensures { result ≡ length (spanned (windows_in windows.now)) }
{
    let mut count: u64 = 0;
    for i in 0..windows.len() / 2 {
        count += width(windows, i);
    }
    count
}

// The day at place j of the windows, from 0; 0 past the last, as in every list of the definitions.
pub(crate) fn day_at(windows: &[u32], j: u64) -> u32
    ensures { result ≡ at (spanned (windows_in windows.now)) j }
{
    let mut left = j;
    for i in 0..windows.len() / 2 {
        let days = width(windows, i);
        if left < days {
            return windows[2 * i] + left as u32;
        }
        left -= days;
    }
    0
}
