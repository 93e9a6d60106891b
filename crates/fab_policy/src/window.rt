//! When a window is open.
ghost use Rattle.std.specs.Prelude.{◌≡◌};
ghost use Rattle.std.specs.List.{list_any};
ghost use Rattle.fab_policy.specs.Windows as spec;

use fab_names::Name;
use fab_policy_base::{Freeze, WEEK_MINUTES, WeekSpan, Window};

/// Whether the number is at or after `from`, and before `until`.
fn spans(from: u64, until: u64, number: u64) -> bool
    ensures { result ≡ spec.spans from until number }
{
    from <= number && number < until
}

/// The minute of the week, from Monday 00:00 UTC, at a moment in Unix seconds.
fn week_minute(moment: u64) -> u64
    ensures { result ≡ spec.week_minute moment }
{
    (moment / 60 + 4320) % WEEK_MINUTES
}

/// Whether some part of the week holds the minute.
fn is_in_week(weekly: &[WeekSpan], minute: u64) -> bool
    ensures { result ≡ spec.is_in_week weekly.now minute }
{
    weekly.iter().any(|w| spans(w.from, w.until, minute))
}

/// Whether some freeze holds the moment.
fn is_frozen(freezes: &[Freeze], moment: u64) -> bool
    ensures { result ≡ spec.is_frozen freezes.now moment }
{
    freezes.iter().any(|f| spans(f.from, f.until, moment))
}

/// Whether the window is open at a moment in Unix seconds: some part of the week holds its minute, and no
/// freeze holds it.
pub fn is_open(window: &Window, moment: u64) -> bool
    ensures { result ≡ spec.is_open window.now moment }
{
    is_in_week(&window.weekly, week_minute(moment)) && !is_frozen(&window.freeze, moment)
}

/// Whether the window has the name and is open at a moment in Unix seconds.
fn is_open_as(window: &Window, name: &Name, moment: u64) -> bool
    ensures { result ≡ spec.is_open_as name.now moment window.now }
{
    window.name == *name && is_open(window, moment)
}

/// Whether a window of that name is open at a moment in Unix seconds.
pub fn some_is_open(windows: &[Window], name: &Name, moment: u64) -> bool
    ensures { result ≡ list_any (spec.is_open_as name.now moment) windows.now }
{
    windows.iter().any(|w| is_open_as(w, name, moment))
}
