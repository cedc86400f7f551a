// Homes, buckets and lines that were worked out by hand. The functions do nothing: each states rows as clauses.
ghost use Rattle.name_table.specs.Rows.{Homes, Forms, OneName, SeventeenNames, StrangeHome};

/// The homes of some names, and what the values of buckets are.
pub fn rows_of_buckets()
    ensures homes { Homes }
    ensures forms { Forms }
{}

/// Lines about one name, about as many as there are buckets and one more, and over a record of no bucket's form.
pub fn rows_of_names()
    ensures one_name { OneName }
    ensures seventeen_names { SeventeenNames }
    ensures strange_home { StrangeHome }
{}
