// The laws of every run of a rack of 3, 5 or 7 cards: any calls, any sizes of logs and lanes, any machine.
#![tactic(auto)]

ghost use Rattle.protocol.specs.Rack.{Sizes};
ghost use Rattle.laws.specs.Laws.{IsRack, Agreement, Integrity, NoLostDelivery, Elections, Counts, CardRules};

use machines::Machine;

// Of any two delivered lists one is the beginning of the other, none gets shorter, and a reading gives what was delivered.
pub fn agreement_holds<M: Machine>()
    ensures { (z : Sizes) → IsRack z → Agreement M.Machine.initial (λ queue words. M.Machine.applied queue (M.Machine.unpacked words)) z }
{}

// Each delivered item is one accepted submit, none comes twice, and machines stand as lone machines.
pub fn integrity_holds<M: Machine>()
    ensures { (z : Sizes) → IsRack z → Integrity M.Machine.initial (λ queue words. M.Machine.applied queue (M.Machine.unpacked words)) z }
{}

// What was delivered in an epoch stands in the log of each winner of a later one.
pub fn no_delivery_is_lost<M: Machine>()
    ensures { (z : Sizes) → IsRack z → NoLostDelivery M.Machine.initial (λ queue words. M.Machine.applied queue (M.Machine.unpacked words)) z }
{}

// An epoch is won at most once, by the card that leads it.
pub fn epochs_are_won_once<M: Machine>()
    ensures { (z : Sizes) → IsRack z → Elections M.Machine.initial (λ queue words. M.Machine.applied queue (M.Machine.unpacked words)) z }
{}

// The tally is the number of accepted submits.
pub fn tally_counts_submits<M: Machine>()
    ensures { (z : Sizes) → IsRack z → Counts M.Machine.initial (λ queue words. M.Machine.applied queue (M.Machine.unpacked words)) z }
{}

// Logs rise, and every card keeps the order of its marks.
pub fn card_rules_hold<M: Machine>()
    ensures { (z : Sizes) → IsRack z → CardRules M.Machine.initial (λ queue words. M.Machine.applied queue (M.Machine.unpacked words)) z }
{}
