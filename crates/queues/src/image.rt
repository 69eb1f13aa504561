// The image of a queue format (01's term), as reading answers.
use crate::format::QueueFormat;
use rules::section::Part;

// The value as the writer takes it: its fixed bytes (GUID, OBJECTID or MULTICAST_ID) and its string, each as a place in
// the image, empty at 0 where the type has none. `octets::part::within` hands their bytes out.
#[derive(Clone, Copy)]
pub struct Image {
    pub format: QueueFormat,
    pub fixed: Part,
    pub text: Part,
}
