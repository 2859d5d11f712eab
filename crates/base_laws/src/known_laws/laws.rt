ghost use Rattle.base_laws.specs.known_laws.Laws.{TriesEnough};

/// What a fact gives with known items, of which only some are tried, is what the rules of two and of three facts give of it and
/// of all known items.
pub fn tries_enough()
    ensures { TriesEnough }
{}
