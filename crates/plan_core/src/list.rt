// Lists of moves.
use edge_table::EdgeSeq;
use item_list::ItemList;

/// A list of moves. A move is a list of edges, which are followed one after the other.
pub type MoveList = ItemList<EdgeSeq>;
