//! What holds of the kinds of inputs.
ghost use Rattle.http_requests.specs.Laws.{KindsAgree};

use http_heads::law::heads_differ;

/// An input is of one kind. Only of one that ends inside its target is it open whether it is refused or cut.
pub fn kinds_agree()
    ensures { KindsAgree }
{
    heads_differ();
}
