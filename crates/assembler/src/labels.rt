// What the labels of a listing name.
ghost use Rattle.std.specs.Prelude.{◌≡◌, Some, None, slice_index_or, slice_set};
ghost use Rattle.text.specs.Layout.{start};

use text::{LabelTable, Mark};

#[derive(Drop)]
pub(crate) struct Labels {
    pub marks: LabelTable,
}

impl Labels {
    // No label is defined.
    pub(crate) fn new() -> Labels
        ensures { result.marks ≡ start.labels }
    {
        Labels {
            marks: [None; 1024],
        }
    }

    // What a label names, where it is defined.
    pub(crate) fn get(&self, label: u16) -> Option<Mark>
        ensures { result ≡ slice_index_or self.now.marks label None }
    {
        self.marks.get(usize::from(label)).copied().flatten()
    }

    pub(crate) fn define(&mut self, label: u16, mark: Mark)
        ensures { self.new.marks ≡ slice_set self.old.marks label (Some mark) }
    {
        // Tested and then indexed: `get_mut` was tried, and the check found the proof of neither case.
        let index = usize::from(label);
        if index < self.marks.len() {
            self.marks[index] = Some(mark);
        }
    }
}
