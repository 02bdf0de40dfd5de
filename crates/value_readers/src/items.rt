// Annotation items by place. They hold values, so the map is read first.
ghost use Rattle.std.specs.Prelude.{◌≡◌};
ghost use Rattle.value_bodies.specs.Answers.{element_outcome};
ghost use Rattle.annotation_items.specs.Answers.{summary_outcome};
ghost use Rattle.value_readers.specs.Items.{annotation_of, annotation_element_of};

use annotation_items::Summary;
use refusal::Refusal;
use value_bodies::Element;

// The annotation item at a place: its visibility, its type, and how many elements it has.
pub fn annotation(f: &[u8], place: usize) -> Result<Summary, Refusal>
    ensures { summary_outcome result ≡ annotation_of f.now place }
{
    let o = super::opening::open_within(f, place)?;
    annotation_items::annotation(
        header::up_to_end(f, o.header),
        header::frame_of(o.header, o.handles),
        place,
    )
}

// Element k of the annotation item at a place: its name and its value.
pub fn annotation_element(f: &[u8], place: usize, k: u32) -> Result<Element, Refusal>
    ensures { element_outcome result ≡ annotation_element_of f.now place k }
{
    let o = super::opening::open_within(f, place)?;
    annotation_items::annotation_element(
        header::up_to_end(f, o.header),
        header::frame_of(o.header, o.handles),
        place,
        k,
    )
}
