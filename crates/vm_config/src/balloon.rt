// What a PATCH makes of the balloon.
ghost use Rattle.std.specs.Prelude.{◌≡◌};
ghost use Rattle.vm_config.specs.Changes as changes;

use api_calls::{Balloon, BalloonPatch, StatisticsPatch};

/// The balloon that is to hold so much.
pub fn with_amount(patch: BalloonPatch, balloon: Option<Balloon>) -> Option<Balloon>
    ensures { result ≡ changes.with_amount patch balloon }
{
    let Some(balloon) = balloon else {
        return None;
    };
    Some(Balloon {
        amount_mib: patch.amount_mib,
        deflate_on_oom: balloon.deflate_on_oom,
        stats_polling_interval_s: balloon.stats_polling_interval_s,
    })
}

/// The balloon whose driver reports so often.
pub fn with_interval(patch: StatisticsPatch, balloon: Option<Balloon>) -> Option<Balloon>
    ensures { result ≡ changes.with_interval patch balloon }
{
    let Some(balloon) = balloon else {
        return None;
    };
    Some(Balloon {
        amount_mib: balloon.amount_mib,
        deflate_on_oom: balloon.deflate_on_oom,
        stats_polling_interval_s: patch.stats_polling_interval_s,
    })
}
