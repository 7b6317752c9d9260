//! Laws of days and months: each function does nothing, and its clause is the law.

ghost use Rattle.dh_days.specs.Laws.{DayTextsAreInOrder, DayTextsAreOfOne, DaysLieByMonth, DaysPrintApart, MonthOfMonthsLater, MonthTextsAreInOrder};
ghost use Rattle.dh_days.specs.Laws.{MonthsLaterInOrder};
ghost use Rattle.dh_days.specs.Laws.{MonthsLaterIsDay, MonthsPrintApart, MoreMonthsLater, NoMonthLater, PrintedDaysAreRead, PrintedDueDaysAreRead};
ghost use Rattle.dh_days.specs.Laws.{PrintedMonthsAreRead, ReadDaysArePrinted};

/// A month that lines know, printed and read, is itself.
pub fn printed_months_are_read()
    ensures { PrintedMonthsAreRead }
{}

/// Months that print as one are one.
pub fn months_print_apart()
    ensures { MonthsPrintApart }
{}

/// The texts of months are in the order of the months.
pub fn month_texts_are_in_order()
    ensures { MonthTextsAreInOrder }
{}

/// A day that lines know, printed and read, is itself.
pub fn printed_days_are_read()
    ensures { PrintedDaysAreRead }
{}

/// A day on which rent can fall due, printed and read, is itself.
pub fn printed_due_days_are_read()
    ensures { PrintedDueDaysAreRead }
{}

/// A day that is read prints as it was read.
pub fn read_days_are_printed()
    ensures { ReadDaysArePrinted }
{}

/// Where the text that a number prints as is read, it is read as that number.
pub fn day_texts_are_of_one()
    ensures { DayTextsAreOfOne }
{}

/// Days that print as one are one.
pub fn days_print_apart()
    ensures { DaysPrintApart }
{}

/// The texts of days are in the order of the days.
pub fn day_texts_are_in_order()
    ensures { DayTextsAreInOrder }
{}

/// A day of the calendar some months later is one, up to 9999-12.
pub fn months_later_is_day()
    ensures { MonthsLaterIsDay }
{}

/// No month later is the day itself.
pub fn zero_months_later_is_the_day()
    ensures { NoMonthLater }
{}

/// Some months later the month is the one so many later.
pub fn month_of_months_later()
    ensures { MonthOfMonthsLater }
{}

/// More months later is a later day.
pub fn more_months_later()
    ensures { MoreMonthsLater }
{}

/// As many months later, days keep their order, though two may meet.
pub fn months_later_in_order()
    ensures { MonthsLaterInOrder }
{}

/// A day lies before or after the day n months after a start as its month does, where the months differ.
pub fn days_lie_by_month()
    ensures { DaysLieByMonth }
{}
