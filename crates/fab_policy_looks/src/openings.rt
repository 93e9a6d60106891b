//! When a window opens.
ghost use Rattle.std.specs.Prelude.{◌≡◌, None};
ghost use Rattle.fab_policy_looks.specs.Inner.Candidates as candidates;
ghost use Rattle.fab_policy_looks.specs.Openings.{IsOpening};

use fab_names::Name;
use fab_policy::window::is_open;
use fab_policy_base::{WEEK_MINUTES, Window};

/// How many seconds a week has.
const WEEK_SECONDS: u64 = WEEK_MINUTES * 60;

/// How many seconds after the moment a minute of the week begins.
fn seconds_to(moment: u64, minute: u64) -> u64
    ensures { result ≡ candidates.seconds_to moment minute }
{
    ((minute % WEEK_MINUTES + 5760) % WEEK_MINUTES * 60 + WEEK_SECONDS - moment % WEEK_SECONDS)
        % WEEK_SECONDS
}

/// The first moment from this one on at which a minute of the week begins.
fn next_start(moment: u64, minute: u64) -> Option<u64>
    ensures { result ≡ candidates.next_start moment minute }
{
    moment.checked_add(seconds_to(moment, minute))
}

/// The earlier of what was found so far and this moment, if the window is open then.
fn better_than(window: &Window, best: Option<u64>, moment: u64) -> Option<u64>
    ensures { result ≡ candidates.better_than window.now best moment }
{
    match best {
        Some(best) => {
            if moment < best && is_open(window, moment) {
                Some(moment)
            } else {
                Some(best)
            }
        }
        None => {
            if is_open(window, moment) {
                Some(moment)
            } else {
                None
            }
        }
    }
}

/// The earlier of what was found so far and a moment, if there is one and the window is open then.
fn better(window: &Window, best: Option<u64>, moment: Option<u64>) -> Option<u64>
    ensures { result ≡ candidates.better window.now best moment }
{
    match moment {
        Some(moment) => better_than(window, best, moment),
        None => best,
    }
}

/// The earlier of what was found so far, and where parts of the week begin after this moment.
fn with_starts(window: &Window, base: u64, best: Option<u64>) -> Option<u64>
    ensures { result ≡ candidates.with_starts window.now base best window.now.weekly }
{
    let mut best = best;
    for span in &window.weekly {
        best = better(window, best, next_start(base, span.from));
    }
    best
}

/// The earlier of what was found so far, this moment, and where parts of the week begin after it.
fn with_base(window: &Window, best: Option<u64>, base: u64) -> Option<u64>
    ensures { result ≡ candidates.with_base window.now best base }
{
    with_starts(window, base, better_than(window, best, base))
}

/// The same of the end of a freeze, unless it is before a moment.
fn with_end(window: &Window, from: u64, best: Option<u64>, end: u64) -> Option<u64>
    ensures { result ≡ candidates.with_end window.now from best end }
{
    if from <= end {
        with_base(window, best, end)
    } else {
        best
    }
}

/// The first moment from one on at which the window is open: a freeze ends then, or a part of the week
/// begins, or it is open already.
fn opening_of(window: &Window, from: u64) -> Option<u64>
    ensures { result ≡ candidates.opening_of window.now from }
{
    let mut best = with_base(window, None, from);
    for freeze in &window.freeze {
        best = with_end(window, from, best, freeze.until);
    }
    best
}

/// The earlier of two moments, of which the second may not be there.
fn earlier_of(first: u64, second: Option<u64>) -> Option<u64>
    ensures { result ≡ candidates.earlier_of first second }
{
    match second {
        Some(second) => {
            if second < first {
                Some(second)
            } else {
                Some(first)
            }
        }
        None => Some(first),
    }
}

/// The earlier of two moments that may be there.
fn earlier(first: Option<u64>, second: Option<u64>) -> Option<u64>
    ensures { result ≡ candidates.earlier first second }
{
    match first {
        Some(first) => earlier_of(first, second),
        None => second,
    }
}

/// The earlier of what was found so far, and the first moment at which the window is open, if it has the
/// name.
fn with_window(window: &Window, name: &Name, from: u64, best: Option<u64>) -> Option<u64>
    ensures { result ≡ candidates.with_window name.now from best window.now }
{
    if window.name == *name {
        earlier(best, opening_of(window, from))
    } else {
        best
    }
}

/// The first of all windows of the name.
fn with_windows(windows: &[Window], name: &Name, from: u64) -> Option<u64>
    ensures { result ≡ candidates.with_windows name.now from None windows.now }
{
    let mut best = None;
    for window in windows {
        best = with_window(window, name, from, best);
    }
    best
}

/// The first moment from one on at which a window of the name is open, in Unix seconds; none where it is
/// not open at any moment that has 64 bits.
///
/// It takes no memory. The work goes by the parts of the week times the freezes of the window.
pub fn opening(windows: &[Window], name: &Name, from: u64) -> Option<u64>
    ensures { IsOpening windows.now name.now from result }
{
    with_windows(windows, name, from)
}
