// Starts by which rows are read.
use header_boxes::Box5;
use vpc_base::OwnList;

/// A start: its id, and the boxes of requests that are asked for from there.
pub struct Origin {
    pub id: OwnList<u8>,
    pub boxes: OwnList<Box5>,
}

impl Drop for Origin {
    fn drop(self) {
        let Origin { id, boxes } = self;
        drop(id);
        drop(boxes);
    }
}
