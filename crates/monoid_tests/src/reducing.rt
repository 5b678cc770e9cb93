// Reduction and the prefix table.
use monoid::clip::ClipBic;
use monoid::draw::{DrawMonoid, DrawTag};
use monoid::path::PathMonoid;
use monoid::reduction::{prefixes, reduce};
use monoid::{CountError, MAX_SOURCES, Monoid, few_enough};
use std::test::Fail;

const CLIPPED_COLOUR: [DrawTag; 3] = [DrawTag::BEGIN_CLIP, DrawTag::COLOR, DrawTag::END_CLIP];

#[test]
fn a_clipped_colour(rt: HostRuntime) {
    let drawn = DrawMonoid {
        path_ix: 3,
        clip_ix: 2,
        scene_offset: 3,
        info_offset: 2,
    };
    assert_eq!(rt; reduce(&CLIPPED_COLOUR), Ok(drawn));
    assert_eq!(rt; reduce(&CLIPPED_COLOUR), Ok(ClipBic { a: 0, b: 0 }));
}

#[test]
fn the_empty_list(rt: HostRuntime) {
    assert_eq!(rt;
        reduce(&[]),
        Ok(PathMonoid {
            trans_ix: 0,
            pathseg_ix: 0,
            pathseg_offset: 0,
            style_ix: 0,
            path_ix: 0
        })
    );
    assert_eq!(rt;
        reduce(&[]),
        Ok(DrawMonoid {
            path_ix: 0,
            clip_ix: 0,
            scene_offset: 0,
            info_offset: 0
        })
    );
    assert_eq!(rt; reduce(&[]), Ok(ClipBic { a: 0, b: 0 }));
}

#[test]
fn the_most_sources(rt: HostRuntime) -> Result<(), Fail> {
    let mut words = vec![in rt.alloc(); 0x0f0f0f0fu32; MAX_SOURCES]?;
    assert_eq!(rt;
        reduce::<PathMonoid>(&words).map(|m| m.pathseg_offset),
        Ok(33554432)
    );
    words.push(0)?;
    assert_eq!(rt;
        reduce::<PathMonoid>(&words),
        Err(CountError::TooManySources)
    );
    Ok(())
}

#[test]
fn the_most_that_are_few_enough(rt: HostRuntime) {
    assert_eq!(rt; few_enough(1048576), Ok(()));
    assert_eq!(rt; few_enough(1048577), Err(CountError::TooManySources));
}

#[test]
fn rows(rt: HostRuntime) {
    let mut table = [ClipBic { a: 7, b: 7 }; 4];
    assert_eq!(rt; prefixes(&CLIPPED_COLOUR, &mut table), Ok(()));
    assert_eq!(rt;
        table,
        [
            ClipBic { a: 0, b: 0 },
            ClipBic { a: 0, b: 1 },
            ClipBic { a: 0, b: 1 },
            ClipBic { a: 7, b: 7 }
        ]
    );
}

#[test]
fn a_short_table_keeps_its_rows(rt: HostRuntime) {
    let mut table = [ClipBic { a: 7, b: 7 }; 2];
    assert_eq!(rt;
        prefixes(&CLIPPED_COLOUR, &mut table),
        Err(CountError::ShortTable)
    );
    assert_eq!(rt; table, [ClipBic { a: 7, b: 7 }; 2]);
}

// Too many sources come before a short table.
#[test]
fn too_many_sources_for_a_table(rt: HostRuntime) -> Result<(), Fail> {
    let mut tags = vec![in rt.alloc(); DrawTag::COLOR; MAX_SOURCES]?;
    let mut table: Vec<DrawMonoid> = vec![in rt.alloc(); DrawMonoid::identity(); MAX_SOURCES]?;
    assert_eq!(rt; prefixes(&tags, &mut table), Ok(()));
    assert_eq!(rt; table.last().map(|m| m.scene_offset), Some(1048575));
    tags.push(DrawTag::COLOR)?;
    let mut short: [PathMonoid; 0] = [];
    assert_eq!(rt; prefixes(&[1, 2], &mut short), Err(CountError::ShortTable));
    assert_eq!(rt;
        prefixes(&tags, &mut table),
        Err(CountError::TooManySources)
    );
    Ok(())
}
