// Document 01, 'Closing a day'.
ghost use Rattle.std.specs.Prelude.{◌≡◌};
ghost use Rattle.season.specs.Closing.{crop_use, close_day, Closable};

use crate::DayClose;

// Crop use U. Where C is at most T − R, a share of C is at most T − D1: the limit is not waited for.
fn crop_use(d1: u32, need: u32, total: u32, ready: u32) -> u32
    requires { Closable d1 0 need total ready }
    ensures { result ≡ crop_use d1 need total ready }
{
    let rest = total - d1;
    if d1 <= ready {
        return need.min(rest);
    }
    let share = need * rest / (total - ready);
    if need <= total - ready {
        return share;
    }
    share.min(rest)
}

pub fn close_day(depletion: u32, water: u32, need: u32, total: u32, ready: u32) -> DayClose
    requires { Closable depletion water need total ready }
    ensures { result ≡ close_day depletion water need total ready }
{
    let d1 = depletion.saturating_sub(water);
    let used = crop_use(d1, need, total, ready);
    DayClose {
        need,
        used,
        percolated: water.saturating_sub(depletion),
        depletion: d1 + used,
    }
}
