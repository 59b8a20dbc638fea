use super::*;
use std::test::Fail;

const SIZE: Size = Size { w: 7, h: 4 };

#[test]
fn guides_of_a_size(rt: HostRuntime) {
    let table = [
        (GuideKind::Leading, 0),
        (GuideKind::Trailing, 7),
        (GuideKind::Top, 0),
        (GuideKind::Bottom, 4),
        (GuideKind::HorizontalCenter, 3),
        (GuideKind::VerticalCenter, 2),
    ];
    for (kind, place) in table {
        assert_eq!(rt; guide(kind, SIZE), place, "{kind:?}");
        assert_eq!(rt; default_guides(SIZE).get(kind), place, "{kind:?}");
    }
}

#[test]
fn lengths_of_numbers(rt: HostRuntime) {
    let table = [
        (-1, 0),
        (0, 0),
        (7, 7),
        (1_000_000, 1_000_000),
        (1_000_001, 1_000_000),
    ];
    for (number, want) in table {
        assert_eq!(rt; to_length(number), want, "{number}");
    }
}

// d[trailing] - d.height / -2 with the trailing guide set to 10, which is 10 + 2.
#[test]
fn an_expression(rt: HostRuntime) -> Result<(), Fail> {
    let alloc = rt.alloc();
    let mut guides = default_guides(SIZE);
    guides.set(GuideKind::Trailing, 3);
    guides.set(GuideKind::Trailing, 10);
    let trailing = Boxed::new(alloc, GuideExpr::Guide(GuideKind::Trailing))?;
    let height = Boxed::new(alloc, GuideExpr::Height)?;
    let half = Boxed::new(alloc, GuideExpr::Quotient(height, -2))?;
    let expr = GuideExpr::Difference(trailing, half).copy(alloc)?;
    assert_eq!(rt; has_divisors(&expr), true);
    assert_eq!(rt; guide_value(&expr, SIZE, &guides), 12);
    Ok(())
}

// (0 - 7) / 2 goes towards zero, and 1,000,000 * 2 - 1 is held at the product.
#[test]
fn steps_of_an_expression(rt: HostRuntime) -> Result<(), Fail> {
    let alloc = rt.alloc();
    let guides = default_guides(SIZE);
    let zero = Boxed::new(alloc, GuideExpr::Literal(0))?;
    let width = Boxed::new(alloc, GuideExpr::Width)?;
    let negated = Boxed::new(alloc, GuideExpr::Difference(zero, width))?;
    let halved = GuideExpr::Quotient(negated, 2);
    assert_eq!(rt; has_divisors(&halved), true);
    assert_eq!(rt; guide_value(&halved, SIZE, &guides), -3);
    let large = Boxed::new(alloc, GuideExpr::Literal(5_000_000))?;
    let two = Boxed::new(alloc, GuideExpr::Literal(2))?;
    let one = Boxed::new(alloc, GuideExpr::Literal(1))?;
    let product = Boxed::new(alloc, GuideExpr::Product(large, two))?;
    let held = GuideExpr::Difference(product, one);
    assert_eq!(rt; has_divisors(&held), true);
    assert_eq!(rt; guide_value(&held, SIZE, &guides), 999_999);
    Ok(())
}
