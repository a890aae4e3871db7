//! Where the shells of a phase are: the law of one holder.
ghost use Rattle.std.specs.Prelude.{◌≡◌, ◌+◌, ℕ, List};
ghost use Rattle.sc_thread_work.specs.declared.shell.shells.Shell.{Shell};
ghost use Rattle.sc_thread_work.specs.declared.queue.rule.Hand.{Hand};
ghost use Rattle.sc_thread_work.specs.declared.queue.rule.Item.{Item};
ghost use Rattle.sc_thread_work.specs.queue.Hands.{Kept};
ghost use Rattle.sc_thread_workers.specs.Holders.{put_of, queued_of, taken_of, HasOneHolder};

use sc_actor::Actor;

/// Shows that where the rule of the queue holds (`Kept`), each shell that was put into the queue of
/// a phase is in the queue or with one holder, and was taken at most once. A shell is known by its
/// actor's number.
pub fn shells_have_one_holder<A: Actor>()
    ensures all { (items : List (Item (Shell A A.Mail A.Order A.Actor A.Mail.Parcel)))
        (views : List (Hand (Shell A A.Mail A.Order A.Actor A.Mail.Parcel)))
        (kept : Kept items views) (number : ℕ) →
        put_of number kept.put ≡ taken_of number views + queued_of number items }
    ensures one { (items : List (Item (Shell A A.Mail A.Order A.Actor A.Mail.Parcel)))
        (views : List (Hand (Shell A A.Mail A.Order A.Actor A.Mail.Parcel)))
        (kept : Kept items views) (number : ℕ) → put_of number kept.put ≡ 1 →
        HasOneHolder number items views }
{}
