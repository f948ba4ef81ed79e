// What holds of every bucket.
ghost use Rattle.std.specs.Prelude.{◌≡◌, ◌<◌, ◌≤◌, ◌++◌, ◌∷◌, ℕ, true, List, []};
ghost use Rattle.token_bucket.specs.Rate.{Rate};
ghost use Rattle.token_bucket.specs.Allowance.{Start, Need, NeverFall, may_pass, moment_at, saved};
ghost use Rattle.token_bucket.specs.Kept.{Kept, Keeps, IsWait, start_of, last_of_all};
ghost use Rattle.token_bucket.specs.Kept.{takes, took, waits_until, saved_of, kept_at};
ghost use Rattle.token_bucket.specs.Window.{IsLife, IsBounded, Lives, with_need, with_needs};

/// Every bucket keeps the saved form of some start and list, so what contracts say of each of these says something.
pub fn some_start()
    ensures { (kept : Kept) → Keeps kept (start_of kept) [] }
{}

/// What passes in any window of a life is bounded.
pub fn rate_bound()
    ensures { (rate : Rate) (start : Start) (needs : List Need) → IsLife rate start needs →
        IsBounded rate start needs }
{}

/// Whether a need passes, what is kept after it and the moment that is waited for are functions of what is kept, and
/// are those of each start and list. So is the saved form, from which what is kept comes back.
pub fn by_what_is_kept()
    ensures passes { (kept : Kept) (start : Start) (needs : List Need) (tokens now : ℕ) → Keeps kept start needs →
        takes kept tokens now ≡ may_pass kept.rate start needs tokens (moment_at start needs now) }
    ensures after { (kept : Kept) (start : Start) (needs : List Need) (tokens now : ℕ) → Keeps kept start needs →
        Keeps (took kept tokens now) start (record { tokens = tokens; moment = moment_at start needs now } ∷ needs) }
    ensures waits { (kept : Kept) (start : Start) (needs : List Need) (tokens : ℕ) → Keeps kept start needs →
        0 < kept.rate.size → kept.moment ≤ last_of_all →
        IsWait kept.rate start needs tokens (waits_until kept tokens) }
    ensures saved { (kept : Kept) (start : Start) (needs : List Need) → Keeps kept start needs →
        saved_of kept ≡ saved kept.rate start needs }
    ensures loaded { (kept : Kept) → kept_at kept.rate (saved_of kept) ≡ kept }
{}

/// A life begins with each bucket and goes on by each need that the bucket takes. Where moments never fall, they
/// count as they are.
pub fn life_goes_on()
    ensures begins { (kept : Kept) → Lives kept (start_of kept) [] }
    ensures passed { (kept : Kept) (start : Start) (needs : List Need) (tokens now : ℕ) → Lives kept start needs →
        takes kept tokens now ≡ true → Lives (took kept tokens now) start (with_need start needs tokens now) }
    ensures in_order { (start : Start) (needs newer : List Need) → NeverFall start (newer ++ needs) →
        with_needs start needs newer ≡ newer ++ needs }
{}
