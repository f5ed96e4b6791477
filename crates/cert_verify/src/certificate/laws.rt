//! The laws, stated as contracts.

ghost use Rattle.cert_verify.specs.certificate.Laws.{PairsGiveTheType, PairsHoldWhatPathsReach};
ghost use Rattle.cert_verify.specs.certificate.Laws.{PathsRefuteTheType};
ghost use Rattle.cert_verify.specs.certificate.Laws.{SamePairsAreAccepted, NormalPairsAreOne};
ghost use Rattle.cert_verify.specs.certificate.Laws.{RejectedAreNotAccepted, AnswersAreOne};
ghost use Rattle.cert_verify.specs.certificate.Laws.{ReachedAreAccepted};
ghost use Rattle.cert_verify.specs.certificate.Laws.{ReachedAreOne};

/// If pairs are accepted for a value, then the value has the type, and the pairs include every
/// object that paths reach. If paths are accepted, then the value does not have the type.
pub fn accepted_sections_are_right()
    ensures pairs { PairsGiveTheType }
    ensures reached { PairsHoldWhatPathsReach }
    ensures paths { PathsRefuteTheType }
{}

/// If two lists of pairs differ only by equal types and by order, and one list is accepted, then
/// the other list is accepted. Of all lists with the same objects at equal types, at most one is in
/// the order of a certificate entry.
pub fn the_same_pairs_are_accepted()
    ensures accepted { SamePairsAreAccepted }
    ensures one { NormalPairsAreOne }
{}

/// No entry is both accepted and rejected, and each entry has one answer.
pub fn answers_are_one()
    ensures never_both { RejectedAreNotAccepted }
    ensures one { AnswersAreOne }
{}

/// The pairs that are written for a value that has the type are accepted, and are unique.
pub fn reached_pairs_are_accepted()
    ensures accepted { ReachedAreAccepted }
    ensures one { ReachedAreOne }
{}
