//! The reader of profiles, in the thread of a source.

use profile_tables::PprofReader;
use stack_core::SampleReader;

/// A reader of this type goes to a thread of its own.
fn is_sent<R: SampleReader + Send + Drop + 'static>() -> bool {
    true
}

#[test]
fn reader_is_sent(rt: HostRuntime) {
    assert!(rt; is_sent::<PprofReader>());
}
