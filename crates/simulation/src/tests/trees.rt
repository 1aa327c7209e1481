//! The blocks that maps are in, as a plain list of nodes: a change copies the nodes of one path, or
//! changes those of them that its own series made, and leaves all others as they are. A node
//! represents a block, and two maps share the nodes that they both reach. Of a value only its
//! length is known here.
use std::alloc::{AllocError, Global};
use vm_types::Key;

/// The node of the empty map, which is in no block.
pub const EMPTY: usize = 0;

/// How many bytes the records of a leaf may take: each has twelve, and its value.
const ROOM: usize = 4080;

/// The maximum number of children of an inner node.
const CHILDREN: usize = 256;

/// A record of a leaf, with the length of its value, or a child of an inner node with the lowest
/// key under it. A record has the node of the empty map.
#[derive(Clone, Copy)]
struct Row {
    low: Key,
    child: usize,
    len: usize,
}

/// A leaf has level 0, and the children of an inner node are one level below it. The rows are in
/// key order.
#[derive(Drop)]
struct Node {
    level: u32,
    rows: Vec<Row>,
}

/// All nodes that ever existed.
#[derive(Drop)]
pub struct Trees {
    alloc: Global,
    nodes: Vec<Node>,
}

/// A key is put, with a value of this length, or removed.
#[derive(Clone, Copy, PartialEq, Eq)]
enum Change {
    Put(usize),
    Remove,
}

/// Which child a key is under: the last one whose lowest key is not above it, or else the first
/// one.
fn place_of(rows: &[Row], key: Key) -> usize {
    let mut place = 0;
    for (n, row) in rows.iter().enumerate() {
        if row.low <= key {
            place = n;
        }
    }
    place
}

/// The rows of a leaf without a key.
fn without(alloc: Global, rows: &[Row], key: Key) -> Result<Vec<Row>, AllocError> {
    let mut others = Vec::new(alloc);
    for row in rows {
        if row.low != key {
            others.push(*row)?;
        }
    }
    Ok(others)
}

/// The rows of a leaf with a key, whose value has `len` bytes.
fn with(alloc: Global, rows: &[Row], key: Key, len: usize) -> Result<Vec<Row>, AllocError> {
    let record = Row {
        low: key,
        child: EMPTY,
        len,
    };
    let mut all = Vec::new(alloc);
    let mut is_in = false;
    for row in rows {
        if row.low >= key && !is_in {
            all.push(record)?;
            is_in = true;
        }
        if row.low != key {
            all.push(*row)?;
        }
    }
    if !is_in {
        all.push(record)?;
    }
    Ok(all)
}

/// How many bytes of a leaf these records take.
fn size(rows: &[Row]) -> usize {
    let mut size: usize = 0;
    for row in rows {
        size = size.saturating_add(row.len).saturating_add(12);
    }
    size
}

/// How many bytes the larger of two leaves takes, of which the first has `cut` of these records.
fn larger(rows: &[Row], cut: usize) -> usize {
    let cut = cut.min(rows.len());
    size(&rows[..cut]).max(size(&rows[cut..]))
}

/// How many of these records the first of two leaves gets, so that the larger one is as small as
/// it can be.
fn best_cut(rows: &[Row]) -> usize {
    let mut best = 1;
    for cut in 2..rows.len() {
        if larger(rows, cut) < larger(rows, best) {
            best = cut;
        }
    }
    best
}

/// Where the first and the second of the leaves end that these records are in, after one of this
/// key was put among them. If there is one leaf, both are at the end, and if there are two, the
/// second is. A new record after all others is alone. If no cut makes two leaves, the record is
/// alone between the others.
fn ends(rows: &[Row], key: Key, is_new: bool) -> (usize, usize) {
    let all = rows.len();
    if size(rows) <= ROOM {
        return (all, all);
    }
    let mut at: usize = 0;
    for row in rows {
        if row.low < key {
            at = at.saturating_add(1);
        }
    }
    let behind = at.saturating_add(1);
    if is_new && behind == all {
        return (at, all);
    }
    let cut = best_cut(rows);
    if larger(rows, cut) <= ROOM {
        (cut, all)
    } else {
        (at, behind)
    }
}

/// The rows of an inner node with others in place of one.
fn with_others(
    alloc: Global,
    rows: &[Row],
    place: usize,
    others: &[Row],
) -> Result<Vec<Row>, AllocError> {
    let mut all = Vec::new(alloc);
    for (i, row) in rows.iter().enumerate() {
        if i == place {
            all.extend_from_slice(others)?;
        } else {
            all.push(*row)?;
        }
    }
    Ok(all)
}

/// The child that a row names, or the node of the empty map if there is none.
fn child_of(row: Option<Row>) -> usize {
    match row {
        Some(row) => row.child,
        None => EMPTY,
    }
}

fn reach(reached: &mut [bool], node: usize) {
    if node < reached.len() {
        reached[node] = true;
    }
}

impl Trees {
    /// Only the node of the empty map.
    pub(super) fn new(alloc: Global) -> Result<Trees, AllocError> {
        let mut nodes = Vec::new(alloc);
        nodes.push(Node {
            level: 0,
            rows: Vec::new(alloc),
        })?;
        Ok(Trees { alloc, nodes })
    }

    /// A copy of it.
    pub(super) fn copy(&self) -> Result<Trees, AllocError> {
        let mut nodes = Vec::new(self.alloc);
        for node in &self.nodes {
            nodes.push(Node {
                level: node.level,
                rows: Vec::from_slice(self.alloc, &node.rows)?,
            })?;
        }
        Ok(Trees {
            alloc: self.alloc,
            nodes,
        })
    }

    fn rows(&self, node: usize) -> &[Row] {
        match self.nodes.get(node) {
            Some(node) => &node.rows,
            None => &[],
        }
    }

    /// How many levels of inner nodes the map under a root has.
    pub(super) fn level(&self, root: usize) -> u32 {
        match self.nodes.get(root) {
            Some(node) => node.level,
            None => 0,
        }
    }

    /// The nodes from the root down to the leaf of a key.
    fn path(&self, root: usize, key: Key) -> Result<Vec<usize>, AllocError> {
        let mut path = Vec::new(self.alloc);
        let mut node = root;
        path.push(node)?;
        for _ in 0..self.level(root) {
            let rows = self.rows(node);
            node = match rows.get(place_of(rows, key)) {
                Some(row) => row.child,
                None => EMPTY,
            };
            path.push(node)?;
        }
        Ok(path)
    }

    /// A node with these rows: this one, or else a new one. Returns the row that names it.
    fn add(
        &mut self,
        level: u32,
        rows: &[Row],
        place: Option<usize>,
    ) -> Result<Option<Row>, AllocError> {
        let Some(first) = rows.first() else {
            return Ok(None);
        };
        let low = first.low;
        let rows = Vec::from_slice(self.alloc, rows)?;
        let child = match place {
            Some(node) if node < self.nodes.len() => {
                self.nodes[node] = Node { level, rows };
                node
            }
            _ => {
                self.nodes.push(Node { level, rows })?;
                self.nodes.len().saturating_sub(1)
            }
        };
        Ok(Some(Row { low, child, len: 0 }))
    }

    /// Nodes with these rows, and the rows that name them: one node for the rows up to the first
    /// end, in this place if there is one, a new one for those up to the second, and one for the
    /// others, where there are any.
    fn add_parts(
        &mut self,
        level: u32,
        rows: &[Row],
        ends: (usize, usize),
        place: Option<usize>,
    ) -> Result<Vec<Row>, AllocError> {
        let second = ends.1.min(rows.len());
        let first = ends.0.min(second);
        let mut names = Vec::new(self.alloc);
        let parts = [
            (&rows[..first], place),
            (&rows[first..second], None),
            (&rows[second..], None),
        ];
        for (part, place) in parts {
            if let Some(row) = self.add(level, part, place)? {
                names.push(row)?;
            }
        }
        Ok(names)
    }

    /// The same for an inner node: two for more children than fit in one. The left one has as many
    /// as the right one, or one more.
    fn add_inner(
        &mut self,
        level: u32,
        rows: &[Row],
        place: Option<usize>,
    ) -> Result<Vec<Row>, AllocError> {
        let half = if rows.len() > CHILDREN {
            rows.len() - rows.len() / 2
        } else {
            rows.len()
        };
        self.add_parts(level, rows, (half, rows.len()), place)
    }

    /// The same for a leaf with a change.
    fn add_leaves(
        &mut self,
        node: usize,
        key: Key,
        change: Change,
        place: Option<usize>,
    ) -> Result<Vec<Row>, AllocError> {
        let old = self.rows(node);
        match change {
            Change::Put(len) => {
                let is_new = without(self.alloc, old, key)?.len() == old.len();
                let rows = with(self.alloc, old, key, len)?;
                self.add_parts(0, &rows, ends(&rows, key, is_new), place)
            }
            Change::Remove => {
                let rows = without(self.alloc, old, key)?;
                self.add_parts(0, &rows, (rows.len(), rows.len()), place)
            }
        }
    }

    /// Copies the nodes of a path with a change of the leaf, or changes those from `first` on.
    /// Returns the rows that name what became of the root: up to three.
    fn change_path(
        &mut self,
        root: usize,
        key: Key,
        change: Change,
        first: usize,
    ) -> Result<Vec<Row>, AllocError> {
        let path = self.path(root, key)?;
        let mut names = Vec::new(self.alloc);
        for node in path.iter().rev() {
            let level = self.level(*node);
            let place = if *node >= first { Some(*node) } else { None };
            if level == 0 {
                names = self.add_leaves(*node, key, change, place)?;
                continue;
            }
            let old = self.rows(*node);
            let rows = with_others(self.alloc, old, place_of(old, key), &names)?;
            names = self.add_inner(level, &rows, place)?;
        }
        Ok(names)
    }

    /// The root of the map with one more key, whose value has `len` bytes. The nodes of the path
    /// before `first` are copied, even if the key is there. If the root becomes two or three, a new
    /// root is put above them.
    pub(super) fn put(
        &mut self,
        root: usize,
        key: Key,
        len: usize,
        first: usize,
    ) -> Result<usize, AllocError> {
        let level = self.level(root).saturating_add(1);
        let names = self.change_path(root, key, Change::Put(len), first)?;
        let name = match names.as_slice() {
            [one] => Some(*one),
            several => self.add(level, several, None)?,
        };
        Ok(child_of(name))
    }

    /// The root of the map without a key. A node that would be empty is left out of the one above
    /// it, and a root that would have one child is not made: the child takes its place, and so on
    /// down.
    pub(super) fn remove(
        &mut self,
        root: usize,
        key: Key,
        first: usize,
    ) -> Result<usize, AllocError> {
        let is_copied = root < first;
        let names = self.change_path(root, key, Change::Remove, first)?;
        let mut root = child_of(names.first().copied());
        if self.level(root) > 0 && self.rows(root).len() == 1 {
            root = self.only_child(root);
            if is_copied {
                self.nodes.pop();
            }
        }
        for _ in 0..self.level(root) {
            root = self.only_child(root);
        }
        Ok(root)
    }

    /// The child of an inner node that has only one, or else the node.
    fn only_child(&self, node: usize) -> usize {
        match self.rows(node) {
            [only] if self.level(node) > 0 => only.child,
            _ => node,
        }
    }

    /// The number of the next new node.
    pub(super) fn next(&self) -> usize {
        self.nodes.len()
    }

    /// How many nodes there are, without that of the empty map.
    pub(super) fn blocks(&self) -> u32 {
        u32::try_from(self.nodes.len().saturating_sub(1)).unwrap_or(u32::MAX)
    }

    /// Which nodes are reached from these roots, without that of the empty map.
    pub(super) fn reached(&self, roots: &[usize]) -> Result<Vec<bool>, AllocError> {
        let mut reached = Vec::from_elem(self.alloc, false, self.nodes.len())?;
        for root in roots {
            reach(&mut reached, *root);
        }
        for level in (1..8).rev() {
            for n in 1..self.nodes.len() {
                if self.level(n) == level && n < reached.len() && reached[n] {
                    for row in self.rows(n) {
                        reach(&mut reached, row.child);
                    }
                }
            }
        }
        if !reached.is_empty() {
            reached[EMPTY] = false;
        }
        Ok(reached)
    }
}
