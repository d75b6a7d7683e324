//! What holds of the instructions of a block.

ghost use Rattle.dj_standing.specs.Standing.{BlocksMayStand, StartsAreBorn, RestsAreOwn};

/// Each instruction of a block may stand where it does, from one on before which no birth has begun. At the start of a block of a method that isn't a
/// constructor none has. Each rest of the code is its own.
pub fn blocks_may_stand()
    ensures stand { BlocksMayStand }
    ensures born { StartsAreBorn }
    ensures own { RestsAreOwn }
{}
