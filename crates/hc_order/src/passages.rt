//! Laws of what passed at one link: each holds of the definitions, and the functions that bear them do nothing.

ghost use Rattle.std.specs.Prelude.{◌≡◌, ℕ, false, List, ◌∷◌};
ghost use Rattle.hc_order.specs.declared.receiver.Receiver.{Receiver};
ghost use Rattle.hc_order.specs.declared.receiver.Receiver.TheVariants.{Client, Origin};
ghost use Rattle.hc_order.specs.Log.{Move};
ghost use Rattle.hc_order.specs.Mirrors.{is_connected, is_underway};
ghost use Rattle.hc_order.specs.Passages.{is_of, passage_of};

/// A link is open by what passed there where the log leaves it open.
pub fn passages_tell_what_is_open()
    ensures clients { (c : ℕ) (log : List Move) → (passage_of (Client c) log).is_open ≡ is_connected c log }
    ensures forwards { (f : ℕ) (log : List Move) → (passage_of (Origin f) log).is_open ≡ is_underway f log }
{}

/// A move of another link leaves what passed at this one.
pub fn a_move_elsewhere_leaves_a_passage()
    ensures { (link : Receiver) (newest : Move) (log : List Move) → is_of link newest ≡ false
        → passage_of link (newest ∷ log) ≡ passage_of link log }
{}
