//! What holds of edges.

ghost use Rattle.dj_edges.specs.Entering.{EdgesEnterBlocks, EdgesAreCovered, EdgesSpareNames, ByKindDresses};
ghost use Rattle.dj_edges.specs.Split.{BlocksHaveCatchers};

/// The statements of an edge, behind what was spilled, enter its block: they put its variables, and jump there. What is
/// put was assigned as the stack was spilled, and no local is named by it. An atom
/// that is dressed by the kinds of values has its value.
pub fn edges_enter_blocks()
    ensures enter { EdgesEnterBlocks }
    ensures covered { EdgesAreCovered }
    ensures spare { EdgesSpareNames }
    ensures by_kind { ByKindDresses }
{}

/// The catchers of the entries of the exception table, by their numbers, are those of what is thrown at an offset,
/// where each entry that is asked has one.
pub fn blocks_have_catchers()
    ensures catches { BlocksHaveCatchers }
{}
