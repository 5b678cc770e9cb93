// Two records combined.
use monoid::clip::ClipBic;
use monoid::draw::{DrawMonoid, DrawTag};
use monoid::path::PathMonoid;
use monoid::{CountError, Monoid};

fn bic(a: u32, b: u32) -> ClipBic {
    ClipBic { a, b }
}

#[test]
fn pushes_and_pops_cancel(rt: HostRuntime) {
    assert_eq!(rt; bic(0, 1).combine(&bic(1, 0)), Ok(bic(0, 0)));
    assert_eq!(rt; bic(1, 0).combine(&bic(0, 1)), Ok(bic(1, 1)));
    assert_eq!(rt; bic(2, 3).combine(&bic(5, 7)), Ok(bic(4, 7)));
}

// A sum on the way may be too large where the result is not.
#[test]
fn only_the_result_has_to_fit(rt: HostRuntime) {
    assert_eq!(rt;
        bic(4294967295, 5).combine(&bic(3, 0)),
        Ok(bic(4294967295, 2))
    );
    assert_eq!(rt;
        bic(4294967295, 0).combine(&bic(1, 0)),
        Err(CountError::DoesNotFit)
    );
    assert_eq!(rt;
        bic(0, 4294967295).combine(&bic(0, 1)),
        Err(CountError::DoesNotFit)
    );
    assert_eq!(rt;
        bic(0, 4294967295).combine(&bic(1, 1)),
        Ok(bic(0, 4294967295))
    );
}

#[test]
fn sums_that_do_not_fit(rt: HostRuntime) {
    let full = PathMonoid {
        pathseg_offset: 4294967295,
        ..PathMonoid::identity()
    };
    assert_eq!(rt;
        full.combine(&PathMonoid::new(0x09)),
        Err(CountError::DoesNotFit)
    );
    assert!(rt; full.combine(&PathMonoid::new(0x70)).is_ok());
    let drawn = DrawMonoid {
        info_offset: 4294967295,
        ..DrawMonoid::identity()
    };
    assert_eq!(rt;
        drawn.combine(&DrawMonoid::new(DrawTag::COLOR)),
        Err(CountError::DoesNotFit)
    );
    assert!(rt; drawn.combine(&DrawMonoid::new(DrawTag::END_CLIP)).is_ok());
}

fn paths(
    trans_ix: u32,
    pathseg_ix: u32,
    pathseg_offset: u32,
    style_ix: u32,
    path_ix: u32,
) -> PathMonoid {
    PathMonoid {
        trans_ix,
        pathseg_ix,
        pathseg_offset,
        style_ix,
        path_ix,
    }
}

fn draws(path_ix: u32, clip_ix: u32, scene_offset: u32, info_offset: u32) -> DrawMonoid {
    DrawMonoid {
        path_ix,
        clip_ix,
        scene_offset,
        info_offset,
    }
}

#[test]
fn one_source(rt: HostRuntime) {
    assert_eq!(rt; PathMonoid::new(0x09094020), paths(1, 2, 4, 2, 0));
    assert_eq!(rt; PathMonoid::new(0x0e0b0a01), paths(0, 4, 17, 0, 0));
    assert_eq!(rt; PathMonoid::new(0xffffffff), paths(4, 4, 32, 8, 4));
    assert_eq!(rt; PathMonoid::new(0x80808080), paths(0, 0, 0, 0, 0));
    assert_eq!(rt; DrawMonoid::new(DrawTag::BLUR_RECT), draws(1, 0, 5, 11));
    assert_eq!(rt; DrawMonoid::new(DrawTag::BEGIN_CLIP), draws(1, 1, 2, 1));
    assert_eq!(rt; DrawMonoid::new(DrawTag::END_CLIP), draws(1, 1, 0, 0));
    assert_eq!(rt; DrawMonoid::new(DrawTag::NOP), draws(0, 0, 0, 0));
}

#[test]
fn numbers_of_refusals(rt: HostRuntime) {
    assert_eq!(rt; CountError::DoesNotFit.number(), 10);
    assert_eq!(rt; CountError::ShortTable.number(), 11);
    assert_eq!(rt; CountError::TooManySources.number(), 12);
}
