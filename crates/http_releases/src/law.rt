//! What holds of the replies that are due.
ghost use Rattle.http_releases.specs.Laws.{RepliesAgree, UnavailableTells};

use http_requests::law::kinds_agree;
use link_laws::image_exists_once;

/// An input has one reply that is due over given tables, but for a keeper that failed and for want of memory. One that is cut has none; only of
/// one that ends inside its target is it open whether it is refused or cut.
pub fn replies_agree()
    ensures { RepliesAgree }
{
    kinds_agree();
    image_exists_once();
}

/// A reply that is due says that the keeper failed only where the keeper's count of faults rose.
pub fn unavailable_tells()
    ensures { UnavailableTells }
{}
