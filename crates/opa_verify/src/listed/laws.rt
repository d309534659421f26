// What holds of listed evaluation.
ghost use Rattle.opa_verify.specs.Listed.Shades.{SeenByShades};

/// What is seen of a tree is a value that can be told of a whole line at once, unless it is missing, which can be told so too.
pub fn seen_by_shades()
    ensures { SeenByShades }
{}
