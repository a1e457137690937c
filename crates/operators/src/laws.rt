// The identities hold for matrices of every size, linear or not.
ghost use Rattle.operators.specs.Identities.{TensorOfProduct, ColumnsInBlocks, TurnInBlocks, BlocksInBlocks, ColumnsInColumns, LanesAfterTurn, LanesOfBlocks, TilesFirst, TilesLast, DiagonalInBlocks, WholeLines};
ghost use Rattle.operators.specs.Loop.{TensorsAsLoops, GatherOfGather, ScatterOfScatter, GatherOfScale, ScaleOfScatter, GatherAsScatter};

/// The identities by which a product of tensors is cut into blocks for processors (Franchetti et al., 2006).
pub fn processor_identities()
    ensures products { TensorOfProduct }
    ensures columns { ColumnsInBlocks }
    ensures turns { TurnInBlocks }
    ensures blocks { BlocksInBlocks }
    ensures lines { WholeLines }
    ensures diagonals { DiagonalInBlocks }
{}

/// The identities by which a product of tensors is cut into lanes and tiles.
pub fn lane_identities()
    ensures columns { ColumnsInColumns }
    ensures after_turn { LanesAfterTurn }
    ensures of_blocks { LanesOfBlocks }
    ensures tiles_first { TilesFirst }
    ensures tiles_last { TilesLast }
{}

/// Tensors as loops, and what gathers, scatters and diagonals make of one another (Franchetti et al., 2005).
pub fn loop_identities()
    ensures tensors { TensorsAsLoops }
    ensures gathers { GatherOfGather }
    ensures scatters { ScatterOfScatter }
    ensures gathered_diagonals { GatherOfScale }
    ensures scattered_diagonals { ScaleOfScatter }
    ensures permutations { GatherAsScatter }
{}
