//! A mail for a group of which the node has no replica: an Install makes one of the state that it
//! carries.
ghost use Rattle.std.specs.Prelude.{◌≡◌, ◌≤◌, ◌||◌, ◌==◌, not, nat_lt, [], length, true, is_some, IfOk, OnOk, IsOk};
ghost use Rattle.sc_node_table.specs.Slots.{slots_ahead};
ghost use Rattle.sc_node_table.specs.Replica.{last_slot};
ghost use Rattle.sc_node_table.specs.Rows.{made_by};
ghost use Rattle.sc_node.specs.PassedInputs.{IsUnknownPassedBy};
ghost use Rattle.sc_node_table.specs.Node.{is_before, replica_of, with_new, with_made, with_born, with_children, unknown, may_come};

use crate::absent::absent;
use crate::node::NodeCore;
use sc_base::{Draw, Dup, OutOfMemory, Sequence};
use sc_mail::{Mail, MailBody};
use sc_node_replica::{LAST_SLOT, Replica};
use sc_node_table::OPEN_SLOTS;
use sc_words::{Base, MemberSets};
use std::alloc::Global;

/// Returns whether a name is ordered before another.
pub(crate) fn is_before(a: Draw, b: Draw) -> bool
    ensures { result ≡ is_before a b }
{
    a.node < b.node || (a.node == b.node && a.count < b.count)
}

/// Inserts a replica in the order of the groups' names.
fn put_new(replicas: &mut Vec<Replica>, made: Replica) -> Result<(), OutOfMemory>
    ensures { OnOk result (replicas.new.items ≡ with_new made replicas.old.items) }
{
    for i in 0..replicas.len() {
        if !is_before(replicas[i].name(), made.name()) {
            replicas.insert(i, made)?;
            return Ok(());
        }
    }
    replicas.push(made)?;
    Ok(())
}

/// Returns whether an Install makes no replica: its slot is too late, or it does not have the
/// members of the open slots.
fn ignores(slot: u32, sets: &MemberSets) -> bool
    ensures { result ≡ (not (length sets.now == slots_ahead) || nat_lt last_slot slot) }
{
    sets.len() != OPEN_SLOTS || LAST_SLOT < slot
}

impl NodeCore {
    /// Makes and inserts the replica of an Install, and returns the mails of an election that it
    /// may begin.
    fn make(
        &mut self,
        alloc: Global,
        from: u16,
        group: Draw,
        slot: u32,
        base: &Base,
        sets: &MemberSets,
    ) -> Result<Sequence<Mail>, OutOfMemory>
        requires most { slot ≤ last_slot }
        requires four { length sets.now ≡ slots_ahead }
        ensures { IfOk result
            (λ sent.
            with_made (made_by self.old.me from group slot base.now sets.now) self.old
            ≡ (self.new, sent)) }
    {
        let (made, sent) = Replica::installed(alloc, self.me, from, group, slot, base, sets)?;
        put_new(&mut self.replicas, made)?;
        Ok(sent)
    }

    /// Makes the replica of a child group, unless there is one.
    fn bear(&mut self, alloc: Global, child: &Base) -> Result<(), OutOfMemory>
        ensures born { OnOk result (self.new ≡ with_born child.now self.old) }
        ensures known { is_some (replica_of child.now.core.id self.old.replicas) ≡ true →
            IsOk result }
    {
        if self.has_replica(child.core.id) {
            return Ok(());
        }
        let replica = Replica::born(alloc, self.me, child.dup(alloc)?)?;
        put_new(&mut self.replicas, replica)
    }

    /// Makes the replica of each of these child groups, unless there is one.
    #[tactic(auto, unfolding(sc_node_table::specs::Node::with_children))]
    pub(crate) fn bear_all(
        &mut self,
        alloc: Global,
        made: &Sequence<Base>,
    ) -> Result<(), OutOfMemory>
        ensures born { OnOk result (self.new ≡ with_children made.now self.old) }
        ensures none { made.now ≡ [] → IsOk result }
    {
        for child in made.as_slice() {
            self.bear(alloc, child)?;
        }
        Ok(())
    }

    /// Handles a mail for a group of which the node has no replica, and returns what is sent.
    pub(crate) fn take_unknown(
        &mut self,
        alloc: Global,
        from: u32,
        body: &MailBody,
    ) -> Result<Sequence<Mail>, OutOfMemory>
        requires { may_come from body.now ≡ true }
        ensures row { IfOk result (λ sent. unknown from body.now self.old ≡ (self.new, sent)) }
        ensures none { IsUnknownPassedBy self.old.me from body.now → IsOk result }
    {
        match body {
            MailBody::Install {
                group,
                slot,
                base,
                sets,
            } => {
                if ignores(*slot, sets) {
                    return Ok(Sequence::new(alloc));
                }
                self.make(alloc, from as u16, *group, *slot, base.get(), sets)
            }
            _ => absent(alloc, self.me, from, body),
        }
    }
}
