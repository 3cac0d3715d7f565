use qm_frac::Frac;

/// What a line asks of fractions.
#[derive(Drop)]
pub enum Question {
    Of(i128, i128),
    Gcd(i128, i128),
    Floor(Frac),
    Ceil(Frac),
    Neg(Frac),
    Write(Frac),
    Add(Frac, Frac),
    Sub(Frac, Frac),
    Mul(Frac, Frac),
    Div(Frac, Frac),
    Cmp(Frac, Frac),
}

/// The question of a line, unless it is spelt wrongly or one of its numbers is out of range.
pub fn read_question(line: &str) -> Option<Question> {
    let (word, rest) = line.split_once(' ')?;
    match word {
        "floor" => Some(Question::Floor(fraction(rest)?)),
        "ceil" => Some(Question::Ceil(fraction(rest)?)),
        "neg" => Some(Question::Neg(fraction(rest)?)),
        "write" => Some(Question::Write(fraction(rest)?)),
        "of" | "gcd" => two_numbers(word, rest),
        _ => two_operands(word, rest),
    }
}

fn two_numbers(word: &str, rest: &str) -> Option<Question> {
    let (left, right) = rest.split_once(' ')?;
    let a = whole(left)?;
    let b = whole(right)?;
    match word {
        "of" => Some(Question::Of(a, b)),
        "gcd" => Some(Question::Gcd(a, b)),
        _ => None,
    }
}

fn two_operands(word: &str, rest: &str) -> Option<Question> {
    let (left, right) = rest.split_once(' ')?;
    let a = fraction(left)?;
    let b = fraction(right)?;
    match word {
        "add" => Some(Question::Add(a, b)),
        "sub" => Some(Question::Sub(a, b)),
        "mul" => Some(Question::Mul(a, b)),
        "div" => Some(Question::Div(a, b)),
        "cmp" => Some(Question::Cmp(a, b)),
        _ => None,
    }
}

// `A/B`, or `A` for a whole number.
fn fraction(text: &str) -> Option<Frac> {
    let (num, den) = text.split_once('/').unwrap_or((text, "1"));
    over(whole(num)?, whole(den)?)
}

/// num / den, unless den is 0 or the fraction is out of range.
pub fn over(num: i128, den: i128) -> Option<Frac> {
    if den == 0 { None } else { Frac::of(num, den) }
}

fn whole(text: &str) -> Option<i128> {
    text.parse::<i128>().ok()
}
