ghost use Rattle.align_guides.specs.Lengths.{IsProposed};

use super::*;

fn bounds(min: Option<i64>, ideal: Option<i64>, max: Option<i64>) -> Bounds {
    Bounds { min, ideal, max }
}

fn proposed(p: Option<u16>) -> Option<u32>
    ensures { IsProposed result }
{
    match p {
        None => None,
        Some(p) => Some(u32::from(p)),
    }
}

// The same arguments, proposal and content on both axes: what the content is proposed, and the size.
fn flexible(rule: Bounds, p: Option<u16>, content: u16) -> (Proposal, Size) {
    let p = Proposal {
        w: proposed(p),
        h: proposed(p),
    };
    let child = Size {
        w: u32::from(content),
        h: u32::from(content),
    };
    let rule = FrameRule::Flexible {
        width: rule,
        height: rule,
    };
    (frame_proposal(&rule, p), frame_size(&rule, p, child))
}

#[test]
fn flexible_frames(rt: HostRuntime) {
    let table = [
        // arguments, proposal, content: what the content is proposed, and the size
        (bounds(None, None, Some(5)), Some(10), 3, Some(5), 5),
        (bounds(None, None, Some(5)), Some(2), 3, Some(2), 3),
        (
            bounds(None, None, Some(1_000_000)),
            Some(30),
            3,
            Some(30),
            30,
        ),
        (bounds(Some(4), None, Some(2)), Some(10), 9, Some(4), 4),
        (bounds(Some(5), None, None), Some(30), 9, Some(30), 9),
        (bounds(Some(8), None, None), None, 6, None, 8),
        (bounds(None, Some(7), None), None, 6, Some(7), 6),
        (bounds(Some(2), Some(7), Some(20)), None, 6, Some(7), 7),
        (bounds(Some(-3), None, Some(-1)), Some(9), 6, Some(0), 0),
        (bounds(None, None, None), Some(30), 9, Some(30), 9),
    ];
    for (rule, p, content, offered, length) in table {
        let (proposal, size) = flexible(rule, p, content);
        assert_eq!(rt; proposal.w, offered, "{rule:?}");
        assert_eq!(rt; proposal.h, offered, "{rule:?}");
        assert_eq!(rt; size.w, length, "{rule:?}");
        assert_eq!(rt; size.h, length, "{rule:?}");
    }
}

#[test]
fn fixed_frames(rt: HostRuntime) {
    let rule = FrameRule::Fixed {
        width: Some(10),
        height: None,
    };
    let p = Proposal {
        w: Some(4),
        h: None,
    };
    let proposal = frame_proposal(&rule, p);
    assert_eq!(rt; proposal.w, Some(10));
    assert_eq!(rt; proposal.h, None);
    assert_eq!(rt;
        frame_size(&rule, p, Size { w: 3, h: 2 }),
        Size { w: 10, h: 2 }
    );
}

#[test]
fn paddings_and_fixed_sizes(rt: HostRuntime) {
    let insets = Insets {
        top: 1,
        leading: 2,
        bottom: 3,
        trailing: 4,
    };
    let small = Proposal {
        w: Some(5),
        h: Some(3),
    };
    let wide = Proposal {
        w: Some(10),
        h: None,
    };
    assert_eq!(rt;
        padding_proposal(&insets, small),
        Proposal {
            w: Some(0),
            h: Some(0)
        }
    );
    assert_eq!(rt;
        padding_proposal(&insets, wide),
        Proposal {
            w: Some(4),
            h: None
        }
    );
    assert_eq!(rt;
        padding_size(&insets, Size { w: 4, h: 5 }),
        Size { w: 10, h: 9 }
    );
    assert_eq!(rt;
        padding_size(&insets, Size { w: 999_999, h: 0 }),
        Size { w: 1_000_000, h: 4 }
    );
    assert_eq!(rt;
        fixed_proposal(true, false, small),
        Proposal {
            w: None,
            h: Some(3)
        }
    );
    assert_eq!(rt; fixed_size(Size { w: 4, h: 5 }), Size { w: 4, h: 5 });
}
