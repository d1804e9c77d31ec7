//! What holds of the definitions of heads.
ghost use Rattle.http_heads.specs.Laws.{HeadsDiffer};

/// An input is of one kind: it begins with a whole head, or is refused, or is cut. Only of an input that ends inside the target is it open
/// whether it is refused or cut.
pub fn heads_differ()
    ensures { HeadsDiffer }
{}
